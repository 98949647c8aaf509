// What a job that pushes on levels gives, and how C gets it: a number first, 0 where the job is done.
ghost use Rattle.std.specs.Prelude.{◌≡◌};
ghost use Rattle.charge.specs.Answers.{as_pushes};

use permutation::reasons::{Refusal, number_in};

// How many pushes were done, and what they spent. That the levels grew by it (`Spends`) is a clause of each job, since a type knows no lent levels.
#[derive(Clone, Copy, Debug, PartialEq, Eq)]
pub struct Spent {
    pub pushes: u32,
    // the jumps of these pushes, added up
    pub charge: u32,
}

// The same as C gets it.
#[repr(C)]
#[derive(Clone, Copy)]
pub struct Pushes {
    pub number: u8,
    pub pushes: u32,
    pub charge: u32,
}

impl From<Result<Spent, Refusal>> for Pushes {
    ghost from_gives = { λ r a. a ≡ as_pushes r };

    fn from(answer: Result<Spent, Refusal>) -> Pushes {
        let number = number_in(&answer);
        let spent = answer.unwrap_or(Spent {
            pushes: 0,
            charge: 0,
        });
        Pushes {
            number,
            pushes: spent.pushes,
            charge: spent.charge,
        }
    }
}
