// What the printing of a sheet gives, and how C gets it: a number first, 0 where the text is in the buffer.
ghost use Rattle.std.specs.Prelude.{◌≡◌};
ghost use Rattle.text.specs.Answers.{as_printed};

use permutation::reasons::{Refusal, number_in};

// The length of the text as C gets it, or a number and 0.
#[repr(C)]
#[derive(Clone, Copy)]
pub struct Printed {
    pub number: u8,
    pub length: usize,
}

impl From<Result<usize, Refusal>> for Printed {
    ghost from_gives = { λ r a. a ≡ as_printed r };

    fn from(answer: Result<usize, Refusal>) -> Printed {
        Printed {
            number: number_in(&answer),
            length: answer.unwrap_or(0),
        }
    }
}
