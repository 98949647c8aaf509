// The successor: the place that the next step pushes, and what decided it.
ghost use Rattle.std.specs.Prelude.{◌≡◌, ◌≤◌, length};
ghost use Rattle.theory.specs.Successor as meaning;
ghost use Rattle.permutation.specs.Records.{record_of};
ghost use Rattle.permutation.specs.Answers.{as_placed, successor_answer, step_of};

use super::answers::{Permutation, Step};
use super::reasons::Refusal;
use super::validity::check;

// The smaller permutation: the names from the last to the second.
fn reflected(names: &[u8]) -> Permutation
    requires { (1 ≤ length names.now) × (length names.now ≤ 20) }
    ensures { result ≡ record_of (meaning.smaller names.now) }
{
    let n = names.len() - 1;
    let mut cells = [0; 20];
    for i in 0..n {
        cells[i] = names[n - i];
    }
    Permutation { n, cells }
}

// It calls itself on the reflected record, of one name less. For other crates too: it asks for at most twenty names.
pub fn next_place(names: &[u8]) -> usize
    requires { length names.now ≤ 20 }
    ensures { result ≡ meaning.successor (length names.now) names.now }
{
    let n = names.len();
    if n <= 2 {
        return 2;
    }
    if usize::from(names[0]) != n {
        return n;
    }
    n + 1 - next_place(reflected(names).names())
}

// The whole step, in the same way. Count up keeps the recursion above, since this one would cost it 6.6 instructions more a step.
fn decide(names: &[u8]) -> Step
    requires { length names.now ≤ 20 }
    ensures { result ≡ step_of (length names.now) names.now }
{
    let n = names.len();
    if n <= 2 {
        return Step {
            place: 2,
            tests: 0,
            size: 2,
        };
    }
    let top = usize::from(names[0]);
    if top != n {
        return Step {
            place: n,
            tests: 1,
            size: n,
        };
    }
    let inner = decide(reflected(names).names());
    Step {
        place: n + 1 - inner.place,
        tests: 1 + inner.tests,
        size: inner.size,
    }
}

pub fn successor(permutation: Permutation) -> Result<Step, Refusal>
    ensures { as_placed result ≡ successor_answer permutation }
{
    check(permutation)?;
    Ok(decide(permutation.names()))
}
