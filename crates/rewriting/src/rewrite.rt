// Rewrite to a target permutation by the fewest pushes.
ghost use Rattle.std.specs.Prelude.{IfOk, ◌≡◌, ◌++◌, reverse, ◌≤◌, length, take, drop};
ghost use Rattle.theory.specs.Rewrite as meaning;
ghost use Rattle.theory.specs.Spent.{Spends};
ghost use Rattle.permutation.specs.Refusals.{number_in};
ghost use Rattle.charge.specs.Answers.{as_pushes};
ghost use Rattle.rewriting.specs.Answers.{target_number, rewrite_answer, rewrite_levels, rewrite_list, RewriteOf};

use super::raise::raise;
use charge::answers::Spent;
use charge::judge::read_number;
use charge::sort::sort_cells;
use permutation::answers::Permutation;
use permutation::reasons::{Refusal, size_within};
use permutation::validity::check;

// Every reason but the ceiling, which is judged on the pushes. `room` is the length of the push list.
fn judge(levels: &[u16], target: Permutation, room: usize) -> Result<(), Refusal>
    ensures { number_in result ≡ target_number levels.now target room }
{
    let n = size_within(levels.len())?;
    size_within(target.n)?;
    if target.n != n || room < n - 1 {
        return Err(Refusal::Fit);
    }
    check(target)?;
    read_number(levels)
}

// Goes up the permutation and crosses off the target's cells from its last one on; those that are left must be pushed.
fn rewrite_count(cells: &[u8], target: &[u8]) -> usize
    requires { length cells.now ≡ length target.now }
    ensures { result ≡ meaning.rewrite_count cells.now target.now }
{
    let mut r = target.len();
    for i in (0..cells.len()).rev() {
        if cells[i] == target[r - 1] {
            r -= 1;
        }
    }
    r
}

// The names go to the start of the list, the last first.
fn list_pushes(list: &mut [u8], cells: &[u8])
    requires { length cells.now ≤ length list.old }
    ensures { list.new ≡ reverse cells.now ++ drop (length cells.now) list.old }
{
    let names = &mut list[..cells.len()];
    names.copy_from_slice(cells);
    names.reverse();
}

// `reached`: the target is what is then read, and no shorter row of pushes leads to it.
pub fn rewrite(levels: &mut [u16], target: Permutation, list: &mut [u8]) -> Result<Spent, Refusal>
    ensures answer { as_pushes result ≡ rewrite_answer levels.old target (length list.old) }
    ensures levels_left { levels.new ≡ rewrite_levels levels.old target (length list.old) }
    ensures list_left { list.new ≡ rewrite_list levels.old target list.old }
    ensures reached { IfOk result (λ done. RewriteOf levels.old target levels.new done.pushes) }
    ensures spent { Spends levels.old levels.new (as_pushes result).charge }
{
    judge(levels, target, list.len())?;
    let mut cells = [0; 20];
    sort_cells(levels, &mut cells);
    let r = rewrite_count(&cells[..target.n], &target.cells[..target.n]);
    let spent = raise(levels, &target.cells, r)?;
    list_pushes(list, &target.cells[..r]);
    Ok(spent)
}
