// k steps: each asks the successor and pushes at the place given. The following step gets the record which that push returned.
ghost use Rattle.std.specs.Prelude.{◌≡◌, IfOk};
ghost use Rattle.permutation.specs.Records.{list_of};
ghost use Rattle.runs.specs.Steps.{as_ran, run_answer, count_in, RunOf, TestsOf};

use super::answers::Ran;
use permutation::answers::Permutation;
use permutation::push::push;
use permutation::reasons::Refusal;
use permutation::successor::successor;
use ranking::rank::rank;

// The rank is worked out from the record that the run ends with. `demand3` speaks of permutations: the run from any of them, for every k; `tests` of what decided
// its steps. A run of no steps judges its record too.
pub fn run_steps(permutation: Permutation, k: u64) -> Result<Ran, Refusal>
    ensures answer { as_ran result ≡ run_answer permutation k }
    ensures demand3 { IfOk result (λ run. RunOf permutation.n (list_of permutation) k (list_of run.permutation) run.rank (count_in run.counts)) }
    ensures tests { IfOk result (λ run. TestsOf permutation.n (list_of permutation) k run.tests) }
{
    successor(permutation)?;
    let mut current = permutation;
    let mut counts = [0u64; 20];
    let mut tests: u64 = 0;
    for _ in 0..k {
        let next = successor(current)?;
        current = push(current, next.place)?;
        let cell = usize::from(current.cells[0]);
        counts[cell - 1] += 1;
        tests = tests.wrapping_add(next.tests as u64);
    }
    let rank = rank(current)?;
    Ok(Ran {
        permutation: current,
        rank,
        counts,
        tests,
    })
}
