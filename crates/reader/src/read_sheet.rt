// The sheet of bytes. The first fault met decides: everything is judged in the sequence of the bytes.
ghost use Rattle.std.specs.Prelude.{◌≡◌, map, ◌≤◌, length, replicate};
ghost use Rattle.theory.specs.Lists.{padded};
ghost use Rattle.sheet.specs.Bytes.{many};
ghost use Rattle.sheet.specs.Sheet as meaning;
ghost use Rattle.sheet.specs.Parts.{Small};
ghost use Rattle.sheet.specs.Held.{as_sheet, sheet_answer, groups_in, group_of, no_group, no_entry, no_contents, held_of};
ghost use Rattle.sheet.specs.Standing.{GroupsHeld};
ghost use Rattle.sheet.specs.declared.held.Entry.{Entry};
ghost use Rattle.reader.specs.Rows.{RowRead, filled};

use permutation::reasons::Refusal;
use sheet::commands::read_command;
use sheet::groups::read_group;
use sheet::held::{Entry, Group, Groups, Sheet, no_sheet};
use sheet::little::little;
use sheet::zeros::read_zeros;

// The number of cells of each group.
fn sizes_of(groups: &Groups) -> [usize; 64]
    requires { GroupsHeld groups.now }
    ensures { result ≡ padded 64 0 (map length (groups_in groups.now)) }
{
    let mut sizes = [0usize; 64];
    for (g, group) in groups.list[..groups.count].iter().enumerate() {
        sizes[g] = group.n;
    }
    sizes
}

// The groups in a row, behind the byte of their count; gives the place after them.
fn read_groups(s: &[u8], count: usize, list: &mut [Group; 64]) -> Result<usize, Refusal>
    requires { (count ≤ 64) × (list.old ≡ replicate 64 no_group) }
    ensures { RowRead group_of 64 no_group (many count (meaning.group s.now) 1) result list.new }
{
    let mut at: usize = 1;
    for place in &mut list[..count] {
        let (group, next) = read_group(s, at)?;
        *place = group;
        at = next;
    }
    Ok(at)
}

// The commands in a row; gives the place after them. A common form with `read_groups` would take the reader of a part, and ask of it what both contracts say.
fn read_entries(
    s: &[u8],
    from: usize,
    count: usize,
    sizes: &[usize],
    entries: &mut [Entry; 1000],
) -> Result<usize, Refusal>
    requires { (count ≤ 1000) × Small sizes.now × (entries.old ≡ replicate 1000 no_entry) }
    ensures { RowRead (λ (e : Entry). e) 1000 no_entry (many count (meaning.command sizes.now s.now) from) result entries.new }
{
    let mut at = from;
    for entry in &mut entries[..count] {
        let (command, next) = read_command(s, at, sizes)?;
        *entry = command;
        at = next;
    }
    Ok(at)
}

// A blank sheet is filled where it stands. For other crates too: it asks for a blank one.
pub fn read_into(bytes: &[u8], sheet: &mut Sheet) -> Result<(), Refusal>
    requires { sheet.old ≡ held_of no_contents }
    ensures { as_sheet (filled result sheet.new) ≡ sheet_answer (meaning.sheet bytes.now) }
{
    let [first, ..] = bytes else {
        return Err(Refusal::Sheet);
    };
    let total = usize::from(*first);
    if !(1..=64).contains(&total) {
        return Err(Refusal::Sheet);
    }
    let at = read_groups(bytes, total, &mut sheet.groups.list)?;
    sheet.groups.count = total;
    if bytes.len().saturating_sub(at) < 2 {
        return Err(Refusal::Sheet);
    }
    let count = little(bytes, at, 2) as usize;
    if 1000 < count {
        return Err(Refusal::Sheet);
    }
    let sizes = sizes_of(&sheet.groups);
    let last = read_entries(bytes, at + 2, count, &sizes[..total], &mut sheet.entries)?;
    sheet.count = count;
    let zeros = read_zeros(bytes, last, total)?;
    sheet.zeros = zeros;
    Ok(())
}

// It is filled in place: a sheet that goes from hand to hand by value costs the stack a copy each time.
pub fn read_sheet(bytes: &[u8]) -> Result<Sheet, Refusal>
    ensures { as_sheet result ≡ sheet_answer (meaning.sheet bytes.now) }
{
    let mut sheet = no_sheet();
    read_into(bytes, &mut sheet)?;
    Ok(sheet)
}
