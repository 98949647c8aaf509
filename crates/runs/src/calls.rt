// A list of count-up calls, each on the levels as the last one left them.
ghost use Rattle.std.specs.Prelude.{◌≡◌, ◌≤◌, length, IfOk};
ghost use Rattle.theory.specs.Spent.{Spends};
ghost use Rattle.theory.specs.Demand3.{Start};
ghost use Rattle.charge.specs.Answers.{as_pushes};
ghost use Rattle.runs.specs.Calls.{calls_answer, called_levels, called_numbers, CallsOf};

use charge::answers::Spent;
use charge::count_up::count_up;
use permutation::reasons::{Refusal, number_in};

// Each call's number goes to its place of `numbers`, whose later bytes keep their values; the answer's pushes and charge are those of all calls together. It is given
// when all calls were made, whatever numbers they got, and is fit where `numbers` has fewer places than there are calls: then nothing is judged or altered.
// `demand3` speaks of levels: any start of 2 to 20 levels without a tie, any list of calls.
pub fn run_calls(levels: &mut [u16], counts: &[u32], numbers: &mut [u8]) -> Result<Spent, Refusal>
    ensures answer { as_pushes result ≡ calls_answer levels.old counts.now numbers.old }
    ensures levels_left { levels.new ≡ called_levels levels.old counts.now numbers.old }
    ensures numbers_left { numbers.new ≡ called_numbers levels.old counts.now numbers.old }
    ensures spent { Spends levels.old levels.new (as_pushes result).charge }
    ensures demand3 { IfOk result (λ done. 2 ≤ length levels.old → Start (length levels.old) levels.old
        → CallsOf levels.old counts.now levels.new numbers.new done.pushes) }
{
    if numbers.len() < counts.len() {
        return Err(Refusal::Fit);
    }
    let mut pushes: u32 = 0;
    let mut charge: u32 = 0;
    // by index: a proof knows nothing of what `iter_mut` under `zip` wrote
    for (i, k) in counts.iter().enumerate() {
        let call = count_up(levels, *k);
        numbers[i] = number_in(&call);
        if let Ok(done) = call {
            pushes += done.pushes;
            charge += done.charge;
        }
    }
    Ok(Spent { pushes, charge })
}
