// What writing gives, and how C gets it: a number first, 0 where the sheet is written.
ghost use Rattle.std.specs.Prelude.{◌≡◌};
ghost use Rattle.writer.specs.Answers.{as_written};

use permutation::reasons::{Refusal, number_in};

// The length of the sheet as C gets it, or a number and 0.
#[repr(C)]
#[derive(Clone, Copy)]
pub struct Written {
    pub number: u8,
    pub length: usize,
}

impl From<Result<usize, Refusal>> for Written {
    ghost from_gives = { λ r a. a ≡ as_written r };

    fn from(answer: Result<usize, Refusal>) -> Written {
        Written {
            number: number_in(&answer),
            length: answer.unwrap_or(0),
        }
    }
}
