// k steps on lent levels, each by the public jobs: it reads the permutation, asks its successor and pushes on the levels at the place given.
ghost use Rattle.std.specs.Prelude.{◌≡◌, IfOk};
ghost use Rattle.theory.specs.Levels.{top_less_bottom, push_level, jump};
ghost use Rattle.theory.specs.CountUp.{next_cell, call_number, call_levels};
ghost use Rattle.theory.specs.Spent.{Spends};
ghost use Rattle.runs.specs.LevelSteps.{as_ran_levels, level_run_answer, LevelsOf};

use super::answers::RanLevels;
use charge::judge::{highest, judge_call, lowest};
use charge::push_level::push_level;
use charge::read::read;
use permutation::reasons::Refusal;
use permutation::successor::successor;
use ranking::rank::rank;

// What a step did: the cell that it pushed, by how much it raised it, and the highest level less the lowest after it.
#[derive(Clone, Copy)]
struct Stepped {
    cell: usize,
    raise: u16,
    spread: u16,
}

// Of levels on which a count-up call by 1 would be done, so that no job refuses.
fn step_levels(levels: &mut [u16]) -> Stepped
    requires { call_number 1 levels.old ≡ 0 }
    ensures cell_pushed { result.cell ≡ next_cell levels.old }
    ensures raised_by { result.raise ≡ jump (next_cell levels.old) levels.old }
    ensures spread_left { result.spread ≡ top_less_bottom levels.new }
    ensures levels_left { levels.new ≡ push_level (next_cell levels.old) levels.old }
{
    let standing = read(levels).unwrap();
    let place = successor(standing).unwrap().place;
    let cell = usize::from(standing.cells[place - 1]);
    let raise = push_level(levels, place).unwrap().charge as u16;
    let spread = highest(levels) - lowest(levels);
    Stepped {
        cell,
        raise,
        spread,
    }
}

// Refused exactly as count up by k is. `demand3` speaks of what is returned and left.
pub fn run_levels(levels: &mut [u16], k: u32) -> Result<RanLevels, Refusal>
    ensures answer { as_ran_levels result ≡ level_run_answer levels.old k }
    ensures levels_left { levels.new ≡ call_levels k levels.old }
    ensures spent { Spends levels.old levels.new (as_ran_levels result).charge }
    ensures demand3 { IfOk result (λ run. LevelsOf levels.old k levels.new (as_ran_levels result)) }
{
    judge_call(levels, k)?;
    let mut counts = [0u64; 20];
    let mut charge: u32 = 0;
    let mut widest = 0;
    let mut largest = 0;
    for _ in 0..k {
        let stepped = step_levels(levels);
        counts[stepped.cell - 1] += 1;
        charge += u32::from(stepped.raise);
        widest = stepped.spread.max(widest);
        largest = stepped.raise.max(largest);
    }
    let standing = read(levels)?;
    let rank = rank(standing)?;
    Ok(RanLevels {
        pushes: k,
        charge,
        counts,
        widest,
        largest,
        rank,
    })
}
