// The stored image of a log.
ghost use Rattle.std.specs.Prelude.{◌≡◌};
ghost use Rattle.image.specs.Calls.{write_call, read_call};
ghost use Rattle.state_cache.specs.State.{raw};
ghost use Rattle.host.specs.Plain.{a_number, left, plainly, wrote, wrote_as};

use super::{Reply, Said, answers};
use state_cache::IndexRecord;

// Writes the image of a log, its batch left out, to the front of `out`. Tells the number of bytes.
#[unsafe(no_mangle)]
pub extern "C" fn kotuseraw_write_image(
    index: IndexRecord,
    log: &[u64],
    snapshot: &[u64],
    out: &mut [u8],
) -> Said
    ensures { wrote result out.new
        ≡ wrote_as (write_call (raw index log.now snapshot.now) out.old) }
{
    answers::said(image::write(index, log, snapshot, out))
}

// Reads an image into a log of this batch size, over whatever its words held. Tells the accepted index.
#[unsafe(no_mangle)]
pub extern "C" fn kotuseraw_read_image(
    batch_size: u64,
    bytes: &[u8],
    log: &mut [u64],
    snapshot: &mut [u64],
) -> Reply
    ensures { left result.said (raw result.index log.new snapshot.new)
        ≡ plainly a_number
        (read_call batch_size bytes.now log.old snapshot.old) }
{
    answers::reply(
        state_cache::inner::fresh_index(0),
        image::read(batch_size, bytes, log, snapshot),
    )
}
