// What the jobs answer, as it is told: a colon, the job's number, 0 where it is done, and what the job gives.
ghost use Rattle.std.specs.Prelude.{◌≤◌, length};

use super::text::{Spaced, Text};
use charge::answers::Pushes;
use permutation::answers::{Permutation, Permuted, Placed};
use permutation::reasons::{Refusal, number_in};
use ranking::answers::Digits;
use runs::answers::{Ran, RanLevels};
use std::fmt;
use std::fmt::{Display, Write};
use symbols::answers::Prefixed;

pub trait Answer {
    fn tell(self, text: &mut Text) -> fmt::Result;
}

// Of a job that gives a number: 0 stands beside a refusal.
pub fn tell_number<T: Display + Default + Drop>(
    answer: Result<T, Refusal>,
    text: &mut Text,
) -> fmt::Result {
    let number = number_in(&answer);
    write!(text, " : {number} {}", answer.unwrap_or_default())
}

// A row without the zeros at its end; place 1 always stands.
fn filled(cells: &[u8; 20]) -> &[u8]
    ensures { length result.now ≤ 20 }
{
    let last = cells.iter().rposition(|cell| *cell != 0).unwrap_or(0);
    &cells[..=last]
}

// n, a bar and the row.
#[derive(Clone, Copy)]
pub struct Record<'a>(pub &'a Permutation);

impl Display for Record<'_> {
    fn fmt<W: Write>(&self, f: &mut fmt::Formatter<W>) -> fmt::Result {
        write!(f, "{} |{}", self.0.n, Spaced(filled(&self.0.cells)))
    }
}

impl Answer for Permuted {
    fn tell(self, text: &mut Text) -> fmt::Result {
        write!(text, " : {} {}", self.number, Record(&self.permutation))
    }
}

impl Answer for Placed {
    fn tell(self, text: &mut Text) -> fmt::Result {
        write!(
            text,
            " : {} {} {} {}",
            self.number, self.place, self.tests, self.size
        )
    }
}

impl Answer for Digits {
    fn tell(self, text: &mut Text) -> fmt::Result {
        write!(text, " : {}{}", self.number, Spaced(&self.row))
    }
}

impl Answer for Pushes {
    fn tell(self, text: &mut Text) -> fmt::Result {
        write!(text, " : {} {} {}", self.number, self.pushes, self.charge)
    }
}

impl Answer for Prefixed {
    fn tell(self, text: &mut Text) -> fmt::Result {
        write!(
            text,
            " : {} {} |{}",
            self.number,
            self.length,
            Spaced(filled(&self.cells))
        )
    }
}

// Zeros stand beside a refusal.
const NO_RUN: Ran = Ran {
    permutation: Permutation {
        n: 0,
        cells: [0; 20],
    },
    rank: 0,
    counts: [0; 20],
    tests: 0,
};

const NO_LEVEL_RUN: RanLevels = RanLevels {
    pushes: 0,
    charge: 0,
    counts: [0; 20],
    widest: 0,
    largest: 0,
    rank: 0,
};

// How often each cell came to place 1 stands between bars.
impl Answer for Result<Ran, Refusal> {
    fn tell(self, text: &mut Text) -> fmt::Result {
        write!(text, " : {}", number_in(&self))?;
        let ran = self.unwrap_or(NO_RUN);
        write!(text, " {} | {}", Record(&ran.permutation), ran.rank)?;
        write!(text, " |{} | {}", Spaced(&ran.counts), ran.tests)
    }
}

// How often each cell was pushed stands last.
impl Answer for Result<RanLevels, Refusal> {
    fn tell(self, text: &mut Text) -> fmt::Result {
        write!(text, " : {}", number_in(&self))?;
        let ran = self.unwrap_or(NO_LEVEL_RUN);
        write!(text, " {} {} {}", ran.pushes, ran.charge, ran.widest)?;
        write!(text, " {} {}", ran.largest, ran.rank)?;
        text.lent(&ran.counts)
    }
}
