// What changing an arrangement gives as C gets it: a number first, 0 where the job is done.
ghost use Rattle.std.specs.Prelude.{◌≡◌};
ghost use Rattle.multicell.specs.Answers.{as_rearranged};

use permutation::reasons::{Refusal, number_in};

// The cost: how far the highest level rises above q.
#[repr(C)]
#[derive(Clone, Copy)]
pub struct Rearranged {
    pub number: u8,
    pub cost: u8,
}

impl From<Result<u8, Refusal>> for Rearranged {
    ghost from_gives = { λ r a. a ≡ as_rearranged r };

    fn from(answer: Result<u8, Refusal>) -> Rearranged {
        Rearranged {
            number: number_in(&answer),
            cost: answer.unwrap_or(0),
        }
    }
}
