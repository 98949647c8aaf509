// Each command of a held sheet is done or refused by itself, by the jobs that stand alone, and the next follows.
ghost use Rattle.std.specs.Prelude.{◌≡◌, take};
ghost use mathlib.Core.List.{zip_with};
ghost use Rattle.theory.specs.Lists.{padded};
ghost use Rattle.sheet.specs.Held.{group_of, levels_of, groups_in, contents_of};
ghost use Rattle.sheet.specs.Standing.{GroupHeld, GroupsHeld, SheetHeld};
ghost use Rattle.charge.specs.Answers.{as_pushes};
ghost use Rattle.work.specs.Work as meaning;
ghost use Rattle.work.specs.Answers.{outcome_of};

use super::answers::Outcome;
use charge::answers::{Pushes, Spent};
use charge::count_up::count_up;
use charge::read::read;
use permutation::answers::Permutation;
use permutation::reasons::Refusal;
use ranking::value::value;
use ranking::zero::Zero;
use rewriting::rewrite::rewrite;
use sheet::held::{Action, Group, Groups, Sheet};
use symbols::store::store;

// The levels and the answer; of the zero tells `zero_left`. One arm a kind, in both: a closure for each would be a table of functions.
fn act(levels: &mut [u16], action: Action, target: Permutation) -> Result<Spent, Refusal>
    ensures answer { as_pushes result ≡ meaning.job_answer action target levels.old }
    ensures levels_left { levels.new ≡ meaning.job_levels action target levels.old }
{
    match action {
        Action::Count(k) => count_up(levels, k),
        Action::Rewrite => rewrite(levels, target, &mut [0; 20]),
        Action::Store(m, symbol) => store(levels, m, symbol),
        Action::ChangeZero => Ok(Spent {
            pushes: 0,
            charge: 0,
        }),
    }
}

fn act_group(group: &mut Group, action: Action, target: Permutation) -> Result<Spent, Refusal>
    requires { GroupHeld group.old }
    ensures answer { as_pushes result ≡ meaning.job_answer action target (levels_of group.old) }
    ensures group_left { group.new ≡ group_of (meaning.job_levels action target (levels_of group.old)) }
{
    act(&mut group.levels[..group.n], action, target)
}

fn zero_left(action: Action, on: Zero) -> Zero
    ensures { result ≡ meaning.job_zero action on }
{
    match action {
        Action::ChangeZero => Zero::New,
        _ => on,
    }
}

fn value_of(group: &Group, on: Zero) -> u64
    requires { GroupHeld group.now }
    ensures { result ≡ meaning.value_of on (levels_of group.now) }
{
    let permutation = read(&group.levels[..group.n]).unwrap();
    value(permutation, on).unwrap()
}

fn values_of(groups: &Groups, zeros: &[Zero; 64]) -> [u64; 64]
    requires { GroupsHeld groups.now }
    ensures { result ≡ padded 64 0 (zip_with meaning.value_of (take groups.now.count zeros.now) (groups_in groups.now)) }
{
    let mut values = [0; 64];
    for g in 0..groups.count {
        values[g] = value_of(&groups.list[g], zeros[g]);
    }
    values
}

// The sheet is one that was read without fault.
pub fn work(sheet: &Sheet) -> Outcome
    requires { SheetHeld sheet.now }
    ensures { result ≡ outcome_of (contents_of sheet.now) }
{
    let mut answers = [Pushes {
        number: 0,
        pushes: 0,
        charge: 0,
    }; 1000];
    let mut groups = sheet.groups;
    let mut zeros = sheet.zeros;
    for (i, entry) in sheet.entries[..sheet.count].iter().enumerate() {
        let action = entry.command.action;
        let g = usize::from(entry.command.group);
        answers[i] = Pushes::from(act_group(&mut groups.list[g], action, entry.target));
        zeros[g] = zero_left(action, zeros[g]);
    }
    let values = values_of(&groups, &zeros);
    Outcome {
        count: sheet.count,
        answers,
        groups,
        zeros,
        values,
    }
}
