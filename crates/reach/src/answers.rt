// What listing the permutations within reach gives as C gets it: a number first, 0 where the job is done.
ghost use Rattle.std.specs.Prelude.{◌≡◌};
ghost use Rattle.reach.specs.Answers.{as_reached};

use permutation::reasons::{Refusal, number_in};

// How many permutations were listed.
#[repr(C)]
#[derive(Clone, Copy)]
pub struct Reached {
    pub number: u8,
    pub permutations: usize,
}

impl From<Result<usize, Refusal>> for Reached {
    ghost from_gives = { λ r a. a ≡ as_reached r };

    fn from(answer: Result<usize, Refusal>) -> Reached {
        Reached {
            number: number_in(&answer),
            permutations: answer.unwrap_or(0),
        }
    }
}
