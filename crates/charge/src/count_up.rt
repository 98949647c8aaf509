// Count up: k next steps, each a push on the levels. The permutation is read once and moved along.
ghost use Rattle.std.specs.Prelude.{◌≡◌};
ghost use Rattle.theory.specs.Permutation.{row};
ghost use Rattle.theory.specs.Levels.{permutation_of, push_level, jump};
ghost use Rattle.theory.specs.CountUp as meaning;
ghost use Rattle.theory.specs.Spent.{Spends};
ghost use Rattle.charge.specs.Answers.{as_pushes, call_answer};
ghost use Rattle.charge.specs.Counting.{Ready, Counted};

use super::answers::Spent;
use super::judge::judge_call;
use super::sort::sort_cells;
use super::sum::level_sum;
use permutation::push::push_row;
use permutation::reasons::Refusal;
use permutation::successor::next_place;
use std::mem;

// `cells` is the row of the levels' permutation, and `top` the highest level, here and below. A struct that holds the lent levels would be no plainer: each of its
// methods would have to say that they are lent still. Gives the jump, which costs nothing where nobody takes it.
fn count_step(levels: &mut [u16], cells: &mut [u8; 20], top: u16) -> u16
    requires { Ready levels.old cells.old top 1 }
    ensures jumped { result ≡ jump (meaning.next_cell levels.old) levels.old }
    ensures levels_left { levels.new ≡ push_level (meaning.next_cell levels.old) levels.old }
    ensures cells_left { cells.new ≡ row (permutation_of levels.new) }
{
    let place = next_place(&cells[..levels.len()]);
    push_row(cells, place);
    let cell = usize::from(cells[0]);
    let before = mem::replace(&mut levels[cell - 1], top + 1);
    top + 1 - before
}

// Few steps, and their charge: each jump is added.
fn few_steps(levels: &mut [u16], cells: &mut [u8; 20], top: u16, k: u16) -> u32
    requires { Ready levels.old cells.old top k }
    ensures { Counted k levels.old levels.new result }
{
    let mut charge = 0;
    for level in top..top + k {
        charge += u32::from(count_step(levels, cells, level));
    }
    charge
}

// Many steps, and their charge: what the levels have more than before. Its loop is a line of its own beside that of `few_steps`, since one that adds each jump
// would cost a long count more than the two sums, and a closure that adds says nothing of what it added.
fn many_steps(levels: &mut [u16], cells: &mut [u8; 20], top: u16, k: u16) -> u32
    requires { Ready levels.old cells.old top k }
    ensures { Counted k levels.old levels.new result }
{
    let before = level_sum(levels);
    for level in top..top + k {
        count_step(levels, cells, level);
    }
    level_sum(levels) - before
}

// Of twenty cells, the two sums cost as much as some sixteen jumps.
fn count_steps(levels: &mut [u16], cells: &mut [u8; 20], top: u16, k: u16) -> u32
    requires { Ready levels.old cells.old top k }
    ensures { Counted k levels.old levels.new result }
{
    if k < 16 {
        few_steps(levels, cells, top, k)
    } else {
        many_steps(levels, cells, top, k)
    }
}

pub fn count_up(levels: &mut [u16], k: u32) -> Result<Spent, Refusal>
    ensures answer { as_pushes result ≡ call_answer levels.old k }
    ensures levels_left { levels.new ≡ meaning.call_levels k levels.old }
    ensures spent { Spends levels.old levels.new (as_pushes result).charge }
{
    let top = judge_call(levels, k)?;
    let mut cells = [0; 20];
    sort_cells(levels, &mut cells);
    let charge = count_steps(levels, &mut cells, top, k as u16);
    Ok(Spent { pushes: k, charge })
}
