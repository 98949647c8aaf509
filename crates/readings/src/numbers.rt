// The numbers of a line. The words between them are for the reader.
ghost use Rattle.std.specs.Prelude.{◌≤◌};

use permutation::answers::Permutation;
use std::fmt;

// How many numbers of a line are kept.
const KEPT: usize = 128;

// In fixed memory, as all rows here: no job of the library needs a heap, and no program over it.
#[derive(Drop)]
pub struct Numbers {
    // zeros past the line's numbers
    list: [u64; KEPT],
    count: usize,
    ghost kept: { count ≤ 128 },
}

impl Numbers {
    pub fn of(line: &[u8]) -> Self {
        let mut list = [0; KEPT];
        let words = line
            .split(|byte| !byte.is_ascii_digit())
            .filter(|word| !word.is_empty());
        for (number, word) in list.iter_mut().zip(words) {
            *number = word.iter().fold(0, |value, digit| append(value, *digit));
        }
        Numbers {
            list,
            count: ended(line).min(KEPT),
        }
    }

    pub fn given(&self) -> Given<'_> {
        Given { left: &self.list }
    }

    // Lends a job the levels past the line's first numbers. A line with fewer numbers has no reply.
    pub fn on_levels<F: FnOnce(&mut [u16]) -> fmt::Result>(
        &self,
        first: usize,
        job: F,
    ) -> fmt::Result
        requires { F.IsAlwaysCallable job }
    {
        let mut levels = self.list.map(|number| capped(number, u16::MAX));
        levels
            .get_mut(first..self.count)
            .map_or(Err(fmt::Error), job)
    }
}

// A number with a digit more, of which the byte's low four bits are the value; one that would not fit stays.
fn append(value: u64, digit: u8) -> u64 {
    value
        .checked_mul(10)
        .and_then(|shifted| shifted.checked_add(u64::from(digit & 15)))
        .unwrap_or(value)
}

// How many numbers there are: one ends where a digit is followed by another byte.
fn ended(line: &[u8]) -> usize {
    line.windows(2)
        .filter(|pair| matches!(pair, [b'0'..=b'9', next] if !next.is_ascii_digit()))
        .count()
}

// The most, for a number past it.
fn capped<T: TryFrom<u64> + Drop>(number: u64, most: T) -> T
where
    T::Error: Drop,
{
    T::try_from(number).unwrap_or(most)
}

// The numbers as they are taken, one after the other. Zeros stand past them.
#[derive(Drop)]
pub struct Given<'a> {
    left: &'a [u64],
}

impl Given<'_> {
    pub fn number(&mut self) -> u64 {
        let Some((first, left)) = self.left.split_first() else {
            return 0;
        };
        self.left = left;
        *first
    }

    pub fn length(&mut self) -> usize {
        self.number() as usize
    }

    // The most, for a number past it.
    pub fn capped<T: TryFrom<u64> + Drop>(&mut self, most: T) -> T
    where
        T::Error: Drop,
    {
        capped(self.number(), most)
    }

    // A record, a permutation or not: n and then the names.
    pub fn permutation(&mut self) -> Permutation {
        let n = self.length();
        let mut cells = [0; 20];
        for cell in &mut cells {
            *cell = self.capped(u8::MAX);
        }
        Permutation { n, cells }
    }
}
