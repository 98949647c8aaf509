// Why a job is refused: document 01, "Why a job is sent back", with what document 02 adds; and the test of a size.
ghost use Rattle.std.specs.Prelude.{◌≡◌};
ghost use Rattle.theory.specs.Refusal.{size_of, size_within};
ghost use Rattle.permutation.specs.Refusals.{number_of, number_in, given_in};

// The papers' words, in the sequence of their numbers.
#[derive(Clone, Copy, Debug, PartialEq, Eq)]
pub enum Refusal {
    // "n is below 2 or above 20": no group has that many cells, no uneven code is of so many, or no arrangement has such sizes
    Size,
    // another n than the group's, two lists of different length, a lent list that is too short, or one of another length than an arrangement or a code
    Fit,
    // no permutation, or no arrangement
    Muddle,
    // two equal charge levels
    Tie,
    // an argument out of its range
    Value,
    // a charge level would pass 65,535
    Ceiling,
    // no symbol's prefix
    Idle,
    // an ill-formed bench sheet
    Sheet,
    // a lent list that is shorter than the bench sheet
    Paper,
    // bands of levels that do not decide what is read
    Unsure,
}

impl Refusal {
    pub fn number(self) -> u8
        ensures { result ≡ number_of self }
    {
        match self {
            Refusal::Size => 1,
            Refusal::Fit => 2,
            Refusal::Muddle => 3,
            Refusal::Tie => 4,
            Refusal::Value => 5,
            Refusal::Ceiling => 6,
            Refusal::Idle => 7,
            Refusal::Sheet => 8,
            Refusal::Paper => 9,
            Refusal::Unsure => 10,
        }
    }
}

// The number of what a job gave: 0 where it is done.
pub fn number_in<T>(answer: &Result<T, Refusal>) -> u8
    ensures { result ≡ number_in answer.now }
{
    match answer {
        Ok(_) => 0,
        Err(refusal) => refusal.number(),
    }
}

// n where a group has so many cells, so that the compiler knows the range of what it gave. For other crates too. Past this test n stays a plain number, as C and the
// record have it, and functions ask for `n ≤ 20`: a type for 2 to 20 would ask more of those who call with any number.
pub fn size_within(n: usize) -> Result<usize, Refusal>
    ensures number { number_in result ≡ size_of n }
    ensures given { given_in 0 result ≡ size_within n }
{
    if !(2..=20).contains(&n) {
        return Err(Refusal::Size);
    }
    Ok(n)
}
