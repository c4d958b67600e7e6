// Lines out of the input, which comes in parts: a line may begin in one and end in another.
ghost use Rattle.std.specs.Prelude.{◌≤◌};
ghost use Rattle.election.specs.Sizes.{chunk_room, longest};

use std::io;
use std::io::{Read, Stdin};
use text::inner::Partial;

const CHUNK: usize = 4096;

// The part that was read last, which of its bytes are yet to be taken, the line so far, and whether there may be more.
#[derive(Drop)]
pub struct Input {
    part: [u8; CHUNK],
    at: usize,
    end: usize,
    line: [u8; super::LINE],
    held: Partial,
    pub more: bool,
    ghost taken: { at ≤ end },
    ghost within: { end ≤ chunk_room },
    ghost fits: { held.len ≤ longest },
}

const NONE_HELD: Partial = Partial {
    len: 0,
    over: false,
};

impl Input {
    pub(crate) fn new() -> Input {
        Input {
            part: [0; CHUNK],
            at: 0,
            end: 0,
            line: [0; super::LINE],
            held: NONE_HELD,
            more: true,
        }
    }

    // Reads a part. After the last one a line ends that has a byte, though no line feed came.
    fn fill(&mut self, from: &mut Stdin) -> io::Result<bool> {
        let n = from.read(&mut self.part)?;
        self.at = 0;
        self.end = n;
        if n > 0 {
            return Ok(false);
        }
        self.more = false;
        Ok(self.held.over || self.held.len > 0)
    }

    // Bytes join the line, up to its end or the part's: whether the line has ended.
    fn take(&mut self) -> bool {
        let mut line = self.line;
        let rest = &self.part[self.at..self.end];
        let e = text::inner::gap(rest, b'\n');
        let left = rest.len() - e;
        self.held = text::inner::keep(&rest[..e], self.held, &mut line);
        self.line = line;
        if left == 0 {
            self.at = self.end;
            return false;
        }
        self.at += e + 1;
        true
    }

    // Takes what is left of the part, up to a line's end, and where nothing is reads the next: whether a line has ended.
    pub(crate) fn step(&mut self, from: &mut Stdin) -> io::Result<bool> {
        if self.at == self.end {
            return self.fill(from);
        }
        Ok(self.take())
    }

    // The line that has ended, unless it did not fit its buffer.
    pub(crate) fn line(&self) -> Option<&[u8]> {
        if self.held.over {
            return None;
        }
        Some(&self.line[..self.held.len])
    }

    // After a line's end the next begins.
    pub(crate) fn next(&mut self) {
        self.held = NONE_HELD;
    }
}
