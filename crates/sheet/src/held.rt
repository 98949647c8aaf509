// A bench sheet in memory: groups, their zeros and commands in rows of fixed length, filled from the front. Rows by value, with a count beside them that is any number:
// nothing is put on a heap, and the writer judges every held sheet, also one whose count is past its row. In one that was read, 0s stand past groups and commands, past
// each n, and in the target of a command that has none, and the old zero past those of the groups; in any other whatever does.
ghost use Rattle.std.specs.Prelude.{◌≡◌, replicate};
ghost use Rattle.ranking.specs.declared.zero.Zero.TheVariants.{Old};
ghost use Rattle.sheet.specs.Held.{no_group, no_entry, no_contents, held_of};

use permutation::answers::Permutation;
use ranking::zero::Zero;

// n cells, and their levels by name.
#[derive(Clone, Copy)]
pub struct Group {
    pub n: usize,
    pub levels: [u16; 20],
}

#[derive(Clone, Copy)]
pub struct Groups {
    pub count: usize,
    pub list: [Group; 64],
}

// What a command asks for, by its kind.
#[derive(Clone, Copy)]
pub enum Action {
    Count(u32),
    Rewrite,
    Store(u64, u64),
    // to the new zero
    ChangeZero,
}

#[derive(Clone, Copy)]
pub struct Command {
    pub group: u8,
    pub action: Action,
}

// A command, and beside it the target of a rewrite.
#[derive(Clone, Copy)]
pub struct Entry {
    pub command: Command,
    pub target: Permutation,
}

// The zeros are those on which the groups start, by group number.
#[derive(Clone, Copy)]
pub struct Sheet {
    pub groups: Groups,
    pub zeros: [Zero; 64],
    pub count: usize,
    pub entries: [Entry; 1000],
}

pub fn no_group() -> Group
    ensures { result ≡ no_group }
{
    Group {
        n: 0,
        levels: [0; 20],
    }
}

// A blank row, whose length stands once for all crates; so do those below. For other crates too.
pub fn no_groups() -> [Group; 64]
    ensures { result ≡ replicate 64 no_group }
{
    [no_group(); 64]
}

// Every group on the old zero. For other crates too.
pub fn old_zeros() -> [Zero; 64]
    ensures { result ≡ replicate 64 Old }
{
    [Zero::Old; 64]
}

pub fn no_entry() -> Entry
    ensures { result ≡ no_entry }
{
    Entry {
        command: Command {
            group: 0,
            action: Action::Count(0),
        },
        target: Permutation::none(),
    }
}

// For other crates too.
pub fn no_entries() -> [Entry; 1000]
    ensures { result ≡ replicate 1000 no_entry }
{
    [no_entry(); 1000]
}

// A blank sheet, to be filled where it stands. For other crates too.
pub fn no_sheet() -> Sheet
    ensures { result ≡ held_of no_contents }
{
    Sheet {
        groups: Groups {
            count: 0,
            list: no_groups(),
        },
        zeros: old_zeros(),
        count: 0,
        entries: no_entries(),
    }
}
