// Text in fixed memory. What does not fit is left out.
ghost use Rattle.std.specs.Prelude.{◌≤◌};

use std::fmt;
use std::fmt::{Display, Write};

// How many bytes there is room for.
const ROOM: usize = 65536;

#[derive(Drop)]
pub struct Text {
    bytes: [u8; ROOM],
    end: usize,
    ghost within: { end ≤ 65536 },
}

impl Text {
    pub fn new() -> Self {
        Text {
            bytes: [0; ROOM],
            end: 0,
        }
    }

    pub fn as_bytes(&self) -> &[u8] {
        &self.bytes[..self.end]
    }

    pub fn clear(&mut self) {
        self.end = 0;
    }

    // Takes the last byte off.
    pub fn pop(&mut self) {
        self.end = self.end.saturating_sub(1);
    }

    // Lays down as many of the bytes as fit, and says whether all did.
    pub fn push(&mut self, bytes: &[u8]) -> bool {
        let count = bytes.len().min(ROOM - self.end);
        self.bytes[self.end..self.end + count].copy_from_slice(&bytes[..count]);
        self.end += count;
        count == bytes.len()
    }

    // A bar and a lent list, as it was left.
    pub fn lent<T: Display + Copy>(&mut self, list: &[T]) -> fmt::Result {
        write!(self, " |{}", Spaced(list))
    }
}

impl Write for Text {
    fn write_str(&mut self, text: &str) -> fmt::Result {
        if self.push(text.as_bytes()) {
            Ok(())
        } else {
            Err(fmt::Error)
        }
    }
}

// Numbers, a space before each.
#[derive(Clone, Copy)]
pub struct Spaced<'a, T>(pub &'a [T]);

impl<T: Display> Display for Spaced<'_, T> {
    fn fmt<W: Write>(&self, f: &mut fmt::Formatter<W>) -> fmt::Result {
        for number in self.0 {
            write!(f, " {number}")?;
        }
        Ok(())
    }
}
