// A push on levels: the level of the cell at a place becomes the highest plus 1, and no other changes.
ghost use Rattle.std.specs.Prelude.{◌≡◌};
ghost use Rattle.theory.specs.Spent.{Spends};
ghost use Rattle.charge.specs.Answers.{as_pushes, place_answer, place_levels};

use super::answers::Spent;
use super::judge::{highest, read_number};
use super::sort::sort_cells;
use permutation::reasons::Refusal;
use std::mem;

pub fn push_level(levels: &mut [u16], place: usize) -> Result<Spent, Refusal>
    ensures answer { as_pushes result ≡ place_answer levels.old place }
    ensures levels_left { levels.new ≡ place_levels levels.old place }
    ensures spent { Spends levels.old levels.new (as_pushes result).charge }
{
    read_number(levels)?;
    if place < 2 || levels.len() < place {
        return Err(Refusal::Value);
    }
    let top = highest(levels);
    if top == u16::MAX {
        return Err(Refusal::Ceiling);
    }
    let mut cells = [0; 20];
    sort_cells(levels, &mut cells);
    let cell = usize::from(cells[place - 1]);
    let before = mem::replace(&mut levels[cell - 1], top + 1);
    let jump = top + 1 - before;
    Ok(Spent {
        pushes: 1,
        charge: u32::from(jump),
    })
}
