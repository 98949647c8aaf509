// What the jobs on symbols give, and how C gets it: a number first, 0 where the job is done.
ghost use Rattle.std.specs.Prelude.{◌≡◌, ◌++◌, ◌-◌, ◌≤◌, take, replicate};
ghost use Rattle.symbols.specs.Answers.{as_symbol, as_prefixed};

use permutation::reasons::{Refusal, number_in};

// A symbol as C gets it. Each such struct has a `From` of its own, since C names its fields.
#[repr(C)]
#[derive(Clone, Copy)]
pub struct Symbol {
    pub number: u8,
    pub symbol: u64,
}

impl From<Result<u64, Refusal>> for Symbol {
    ghost from_gives = { λ r a. a ≡ as_symbol r };

    fn from(answer: Result<u64, Refusal>) -> Symbol {
        Symbol {
            number: number_in(&answer),
            symbol: answer.unwrap_or(0),
        }
    }
}

// A prefix: its length, and its cells first in a row, which is fixed memory. As a row is found, the other names stand behind them (`store_prefix` asks for those);
// `alone` has zeros there.
#[derive(Clone, Copy, Debug, PartialEq, Eq)]
pub struct Prefix {
    pub length: usize,
    pub cells: [u8; 20],
}

impl Prefix {
    // Zeros past it, where other names stood. For other crates too: it asks for at most twenty cells.
    pub fn alone(self) -> Prefix
        requires { self.length ≤ 20 }
        ensures { result ≡ record { length = self.length; cells = take self.length self.cells ++ replicate (20 - self.length) 0 } }
    {
        let Prefix { length, mut cells } = self;
        cells[length..].fill(0);
        Prefix { length, cells }
    }
}

// A prefix as C gets it.
#[repr(C)]
#[derive(Clone, Copy)]
pub struct Prefixed {
    pub number: u8,
    pub length: usize,
    pub cells: [u8; 20],
}

impl From<Result<Prefix, Refusal>> for Prefixed {
    ghost from_gives = { λ r a. a ≡ as_prefixed r };

    fn from(answer: Result<Prefix, Refusal>) -> Prefixed {
        let number = number_in(&answer);
        let prefix = answer.unwrap_or(Prefix {
            length: 0,
            cells: [0; 20],
        });
        // by a variable: a literal takes no array of another struct's field straight
        let cells = prefix.cells;
        Prefixed {
            number,
            length: prefix.length,
            cells,
        }
    }
}
