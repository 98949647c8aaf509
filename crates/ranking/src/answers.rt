// What the jobs on ranks give, as C gets it: a number first, 0 where the job is done. A rank and a value are two structs, since C names their fields.
ghost use Rattle.std.specs.Prelude.{◌≡◌};
ghost use Rattle.ranking.specs.Answers.{as_digits, as_ranked, as_valued};

use permutation::reasons::{Refusal, number_in};

#[repr(C)]
#[derive(Clone, Copy)]
pub struct Digits {
    pub number: u8,
    pub row: [u8; 20],
}

impl From<Result<[u8; 20], Refusal>> for Digits {
    ghost from_gives = { λ r a. a ≡ as_digits r };

    fn from(answer: Result<[u8; 20], Refusal>) -> Digits {
        Digits {
            number: number_in(&answer),
            row: answer.unwrap_or([0; 20]),
        }
    }
}

#[repr(C)]
#[derive(Clone, Copy)]
pub struct Ranked {
    pub number: u8,
    pub rank: u64,
}

impl From<Result<u64, Refusal>> for Ranked {
    ghost from_gives = { λ r a. a ≡ as_ranked r };

    fn from(answer: Result<u64, Refusal>) -> Ranked {
        Ranked {
            number: number_in(&answer),
            rank: answer.unwrap_or(0),
        }
    }
}

#[repr(C)]
#[derive(Clone, Copy)]
pub struct Valued {
    pub number: u8,
    pub value: u64,
}

impl From<Result<u64, Refusal>> for Valued {
    ghost from_gives = { λ r a. a ≡ as_valued r };

    fn from(answer: Result<u64, Refusal>) -> Valued {
        Valued {
            number: number_in(&answer),
            value: answer.unwrap_or(0),
        }
    }
}
