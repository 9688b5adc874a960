//! The match program's input, kept as the bytes of the line that gave it.
use case_lines::Line;
use formats::split::{Parts, split};

// The longest input; what a line has beyond it is passed over.
const ROOM: usize = 8192;

// The first `len` bytes are the input.
#[derive(Drop)]
pub(crate) struct Plant {
    bytes: [u8; ROOM],
    len: usize,
}

impl Plant {
    // Before any line: an empty input.
    pub(crate) fn new() -> Plant {
        Plant {
            bytes: [0; ROOM],
            len: 0,
        }
    }

    // The input of another line.
    pub(crate) fn read(&mut self, line: Line<'_>) {
        self.len = line.bytes(&mut self.bytes).len();
    }

    pub(crate) fn parts(&self) -> Parts<'_> {
        split(self.bytes.get(..self.len).unwrap_or(&[]))
    }
}
