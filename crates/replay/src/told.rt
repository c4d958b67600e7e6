// What is told of the file that the program was started with: a line, where not all is well.
ghost use Rattle.std.specs.Prelude.{◌≡◌, ◌++◌, ◌+◌, ◌≤◌, length, take, IfOk};
ghost use Rattle.text.specs.Refusing.{refused_room, refused_text};
ghost use Rattle.replay.specs.Told.{told_room, told_text, untold};

use std::io;
use std::io::Stdout;

// The most bytes of such a line.
const TOLD_ROOM: usize = 128;

// Why there is no log, or none saved. A refusal is told by its number and what it carries.
#[derive(Clone, Copy)]
pub enum Told {
    // Before the first line: no file can have the name; the file cannot be read; it has no image.
    NoName,
    Unread,
    NoImage(u64, u64),
    // After the last line: the log has no image; what became of the save.
    NoBytes(u64, u64),
    NotMade,
    NotWritten,
    NotNamed,
    NotSynced,
}

// A label, and a refusal's line.
fn put_refused(out: &mut [u8], label: &[u8], number: u64, carried: u64) -> usize
    requires { length label.now + refused_room ≤ length out.old }
    ensures upper_bound { result ≤ length label.now + refused_room }
    ensures out_after { take result out.new ≡ label.now ++ refused_text number carried }
{
    let at = text::inner::put(out, 0, label);
    text::inner::put_refused(out, at, number, carried)
}

// The line to the front of out.
#[tactic(auto, unfolding(crate::specs::Told::told_text))]
fn put_told(out: &mut [u8], told: Told) -> usize
    requires { told_room ≤ length out.old }
    ensures upper_bound { result ≤ told_room }
    ensures out_after { take result out.new ≡ told_text told }
{
    match told {
        Told::NoName => text::inner::put(
            out,
            0,
            b"not loaded: no file can be saved by this name\n",
        ),
        Told::Unread => text::inner::put(out, 0, b"not loaded: the file cannot be read\n"),
        Told::NoImage(number, carried) => put_refused(out, b"", number, carried),
        Told::NoBytes(number, carried) => {
            put_refused(out, b"not saved, the old file stands: ", number, carried)
        }
        Told::NotMade => {
            let line = b"not saved, the old file stands: no new file could be made beside it\n";
            text::inner::put(out, 0, line)
        }
        Told::NotWritten => {
            let line = b"not saved, the old file stands: the new one could not be written\n";
            text::inner::put(out, 0, line)
        }
        Told::NotNamed => {
            let line = b"not saved, the old file stands: the new one could not be given its name\n";
            text::inner::put(out, 0, line)
        }
        Told::NotSynced => {
            let line =
                b"saved, the new file stands, but may not outlast a crash: its directory could not be synced\n";
            text::inner::put(out, 0, line)
        }
    }
}

// Writes the line where there is one to tell; hands on what there is where there is none.
pub(crate) fn tell<T: Copy>(to: Stdout, told: Result<T, Told>) -> io::Result<Option<T>>
    ensures { IfOk result (λ value. value ≡ untold told) }
{
    match told {
        Ok(value) => Ok(Some(value)),
        Err(told) => {
            let mut out = [0u8; TOLD_ROOM];
            let n = put_told(&mut out, told);
            to.write_all(&out[..n])?;
            Ok(None)
        }
    }
}
