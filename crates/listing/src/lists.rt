// Groups and commands from lent lists, one for each field. A kind is added in `command_of`. Each row has a loop of its own, since it is
// filled from lists of its own.
ghost use Rattle.std.specs.Prelude.{◌≡◌, ◌+◌, ◌*◌, ◌≤◌, length};
ghost use Rattle.sheet.specs.Held.{no_group, no_entry};
ghost use Rattle.listing.specs.LentLists as meaning;

use permutation::answers::Permutation;
use sheet::held::{Action, Command, Entry, Group, no_entries, no_groups};

// How much of what is counted is held: all, or 0 of more than there is room for, since no sheet has so many.
pub fn within(room: usize, count: usize) -> usize
    ensures { result ≡ meaning.within room count }
{
    if count <= room { count } else { 0 }
}

pub fn groups_in(sizes: &[usize], levels: &[u16]) -> [Group; 64]
    requires { 20 * length sizes.now ≤ length levels.now }
    ensures { result ≡ meaning.row_of 64 no_group (meaning.group_at sizes.now levels.now) (length sizes.now) }
{
    let mut list = no_groups();
    for i in 0..within(64, sizes.len()) {
        let mut row = [0; 20];
        row.copy_from_slice(&levels[20 * i..20 * i + 20]);
        list[i] = Group {
            n: sizes[i],
            levels: row,
        };
    }
    list
}

// No sheet has this command, since none has so many groups.
fn stray() -> Command
    ensures { result ≡ meaning.stray }
{
    Command {
        group: 255,
        action: Action::Count(0),
    }
}

#[tactic(auto, unfolding(crate::specs::LentLists::count_of))]
fn count_of(group: u8, k: u64) -> Command
    ensures { result ≡ meaning.count_of group k }
{
    let Ok(k) = u32::try_from(k) else {
        return stray();
    };
    Command {
        group,
        action: Action::Count(k),
    }
}

// The kinds are numbers, since C lends a list of them.
#[tactic(auto, unfolding(crate::specs::LentLists::command_of))]
fn command_of(kind: u8, group: u8, a: u64, b: u64) -> Command
    ensures { result ≡ meaning.command_of kind group a b }
{
    match kind {
        1 => count_of(group, a),
        2 => Command {
            group,
            action: Action::Rewrite,
        },
        3 => Command {
            group,
            action: Action::Store(a, b),
        },
        4 => Command {
            group,
            action: Action::ChangeZero,
        },
        _ => stray(),
    }
}

pub fn entries_in(kinds: &[u8], groups: &[u8], numbers: &[u64], names: &[u8]) -> [Entry; 1000]
    requires { (length kinds.now ≤ length groups.now) × (2 * length kinds.now ≤ length numbers.now) × (20 * length kinds.now ≤ length names.now) }
    ensures { result ≡ meaning.row_of 1000 no_entry (meaning.entry_at kinds.now groups.now numbers.now names.now) (length kinds.now) }
{
    let mut entries = no_entries();
    for i in 0..within(1000, kinds.len()) {
        let a = numbers[2 * i];
        let mut cells = [0; 20];
        cells.copy_from_slice(&names[20 * i..20 * i + 20]);
        entries[i] = Entry {
            command: command_of(kinds[i], groups[i], a, numbers[2 * i + 1]),
            target: Permutation {
                n: a as usize,
                cells,
            },
        };
    }
    entries
}
