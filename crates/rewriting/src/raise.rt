// The first r cells of a row are pushed on the levels, the r-th first and the first last, so that they come to stand as in the row.
ghost use Rattle.std.specs.Prelude.{◌≡◌, reverse, ◌≤◌, length, take};
ghost use Rattle.theory.specs.CountUp.{ceiling_of};
ghost use Rattle.theory.specs.Levels as meaning;
ghost use Rattle.theory.specs.Spent.{charge_of};
ghost use Rattle.charge.specs.Answers.{as_pushes, pushes_of};
ghost use Rattle.rewriting.specs.Raising.{Pushable, Raisable, sum_above, raised};

use charge::answers::Spent;
use charge::judge::highest;
use permutation::reasons::Refusal;
use std::mem;

// The r levels above `top`, added up.
fn sum_above(top: u16, r: usize) -> u32
    requires { r ≤ 20 }
    ensures { result ≡ sum_above top r }
{
    let count = r as u32;
    count * u32::from(top) + count * (count + 1) / 2
}

// `top` is the highest level. Gives the charge: the levels that the cells get, less those that they had.
fn push_first(levels: &mut [u16], cells: &[u8; 20], r: usize, top: u16) -> u32
    requires { Raisable levels.old cells.now r top }
    ensures charge_is { result ≡ charge_of (reverse (take r cells.now)) levels.old }
    ensures levels_left { levels.new ≡ meaning.push_levels (reverse (take r cells.now)) levels.old }
{
    let last = usize::from(top) + r;
    let mut had = 0;
    for i in (0..r).rev() {
        let cell = usize::from(cells[i]);
        let before = mem::replace(&mut levels[cell - 1], (last - i) as u16);
        had += u32::from(before);
    }
    sum_above(top, r) - had
}

// All of them, or Ceiling and none: it is judged before the first. For other crates too: it asks for a row of cells.
pub fn raise(levels: &mut [u16], cells: &[u8; 20], r: usize) -> Result<Spent, Refusal>
    requires { Pushable (length levels.old) cells.now r }
    ensures answer { as_pushes result ≡ pushes_of (ceiling_of levels.old r) r (charge_of (reverse (take r cells.now)) levels.old) }
    ensures levels_left { levels.new ≡ raised levels.old cells.now r }
{
    let top = highest(levels);
    if usize::from(u16::MAX - top) < r {
        return Err(Refusal::Ceiling);
    }
    let charge = push_first(levels, cells, r, top);
    Ok(Spent {
        pushes: r as u32,
        charge,
    })
}
