// One command of the sheet. A kind is added in `read_command`, with a function for what follows its group number, if anything does.
ghost use Rattle.std.specs.Prelude.{◌≡◌, [], ◌+◌, ◌≤◌, length};
ghost use Rattle.theory.specs.Permutation.{row};
ghost use Rattle.sheet.specs.Sheet as meaning;
ghost use Rattle.sheet.specs.Parts.{as_entry, entry_answer, numbers, Small};

use super::held::{Action, Command, Entry};
use super::little::little;
use permutation::answers::Permutation;
use permutation::reasons::Refusal;

// A command that has no target.
fn untargeted(group: u8, action: Action) -> Entry
    ensures { result ≡ meaning.entry group action [] }
{
    Entry {
        command: Command { group, action },
        target: Permutation::none(),
    }
}

fn count_at(s: &[u8], at: usize, group: u8) -> Result<(Entry, usize), Refusal>
    requires { at ≤ length s.now }
    ensures { as_entry result ≡ entry_answer (meaning.count_at group s.now at) }
{
    if s.len() - at < 4 {
        return Err(Refusal::Sheet);
    }
    let k = little(s, at, 4) as u32;
    Ok((untargeted(group, Action::Count(k)), at + 4))
}

// n names of a byte from a place on, in a row of twenty.
fn names_at(s: &[u8], from: usize, n: usize) -> [u8; 20]
    requires { (n ≤ 20) × (from + n ≤ length s.now) }
    ensures { result ≡ row (numbers 1 n s.now from) }
{
    let mut names = [0u8; 20];
    names[..n].copy_from_slice(&s[from..from + n]);
    names
}

// n is the number of the group's cells.
fn rewrite_at(s: &[u8], at: usize, group: u8, n: usize) -> Result<(Entry, usize), Refusal>
    requires { (at ≤ length s.now) × (n ≤ 20) }
    ensures { as_entry result ≡ entry_answer (meaning.rewrite_at group n s.now at) }
{
    if s.len() - at < n {
        return Err(Refusal::Sheet);
    }
    let entry = Entry {
        command: Command {
            group,
            action: Action::Rewrite,
        },
        target: Permutation {
            n,
            cells: names_at(s, at, n),
        },
    };
    Ok((entry, at + n))
}

fn store_at(s: &[u8], at: usize, group: u8) -> Result<(Entry, usize), Refusal>
    requires { at ≤ length s.now }
    ensures { as_entry result ≡ entry_answer (meaning.store_at group s.now at) }
{
    if s.len() - at < 16 {
        return Err(Refusal::Sheet);
    }
    let m = little(s, at, 8);
    let symbol = little(s, at + 8, 8);
    Ok((untargeted(group, Action::Store(m, symbol)), at + 16))
}

// A command, and the place after it. `sizes` has the number of cells of each group. For other crates too: it asks that no size is above twenty.
pub fn read_command(s: &[u8], at: usize, sizes: &[usize]) -> Result<(Entry, usize), Refusal>
    requires { Small sizes.now }
    ensures { as_entry result ≡ entry_answer (meaning.command sizes.now s.now at) }
{
    if s.len().saturating_sub(at) < 2 {
        return Err(Refusal::Sheet);
    }
    let kind = s[at];
    let group = s[at + 1];
    let g = usize::from(group);
    if sizes.len() <= g {
        return Err(Refusal::Sheet);
    }
    let body = at + 2;
    // a kind is a byte of the sheet: its numbers stand here, where it is read, and in `encoding::commands`, where it is written
    match kind {
        1 => count_at(s, body, group),
        2 => rewrite_at(s, body, group, sizes[g]),
        3 => store_at(s, body, group),
        4 => Ok((untargeted(group, Action::ChangeZero), body)),
        _ => Err(Refusal::Sheet),
    }
}
