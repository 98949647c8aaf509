// The record of a permutation, what the jobs on permutations give, and how C gets it: a number first, 0 where the job is done.
ghost use Rattle.std.specs.Prelude.{◌≡◌, ◌≤◌};
ghost use Rattle.permutation.specs.Records.{list_of};
ghost use Rattle.permutation.specs.Answers.{as_permuted, as_placed, no_record};

use super::reasons::{Refusal, number_in};

// Document 01: an order. The first n places hold each of 1 to n once, highest charge first; the places past n hold 0. A row of twenty with n beside it, as C takes it:
// the library allocates nothing, here and in the crates above, so that its rows have a fixed length.
#[repr(C)]
#[derive(Clone, Copy, Debug, PartialEq, Eq)]
pub struct Permutation {
    pub n: usize,
    pub cells: [u8; 20],
}

impl Permutation {
    // The names in its first n places. For other crates too: it asks that n is within the row.
    pub fn names(&self) -> &[u8]
        requires { self.now.n ≤ 20 }
        ensures { result.now ≡ list_of self.now }
    {
        &self.cells[..self.n]
    }

    // The record of no cells, which stands beside a number that is not 0.
    pub fn none() -> Permutation
        ensures { result ≡ no_record }
    {
        Permutation {
            n: 0,
            cells: [0; 20],
        }
    }
}

// A permutation as C gets it.
#[repr(C)]
#[derive(Clone, Copy)]
pub struct Permuted {
    pub number: u8,
    pub permutation: Permutation,
}

impl From<Result<Permutation, Refusal>> for Permuted {
    ghost from_gives = { λ r a. a ≡ as_permuted r };

    fn from(answer: Result<Permutation, Refusal>) -> Permuted {
        Permuted {
            number: number_in(&answer),
            permutation: answer.unwrap_or(Permutation::none()),
        }
    }
}

// The place that the next step pushes, and what decided it (document 02, request 9).
#[derive(Clone, Copy, Debug, PartialEq, Eq)]
pub struct Step {
    pub place: usize,
    // how many times "is the largest cell on top" was tested
    pub tests: usize,
    // the size of the shrunken group at which the answer fell
    pub size: usize,
}

// A step as C gets it.
#[repr(C)]
#[derive(Clone, Copy)]
pub struct Placed {
    pub number: u8,
    pub place: usize,
    pub tests: usize,
    pub size: usize,
}

impl From<Result<Step, Refusal>> for Placed {
    ghost from_gives = { λ r a. a ≡ as_placed r };

    fn from(answer: Result<Step, Refusal>) -> Placed {
        let number = number_in(&answer);
        let step = answer.unwrap_or(Step {
            place: 0,
            tests: 0,
            size: 0,
        });
        Placed {
            number,
            place: step.place,
            tests: step.tests,
            size: step.size,
        }
    }
}
