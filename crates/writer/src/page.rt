// The sheet on a page that has room for the longest one. The first fault met decides: everything is judged in the sequence of the bytes, where it would stand.
// The whole page is passed beside the place, since `Lays` tells of both. Groups and commands have a loop each: a command is judged by the groups too.
ghost use Rattle.std.specs.Prelude.{◌+◌, ◌≤◌, length};
ghost use Rattle.sheet.specs.Claims.{longest_sheet};
ghost use Rattle.encoding.specs.SheetBytes.{groups_bytes, commands_bytes, sheet_bytes};
ghost use Rattle.encoding.specs.Faults.{groups_number, commands_number, sheet_number};
ghost use Rattle.encoding.specs.Lays.{Lays, SmallGroups, as_laid};

use encoding::commands::put_command;
use encoding::groups::put_group;
use encoding::little::put_little;
use encoding::zeros::put_zeros;
use permutation::reasons::Refusal;
use sheet::held::{Groups, Sheet};

// The groups, from the sheet's first byte: at most 1 + 64 × 41 bytes.
fn put_groups(out: &mut [u8], groups: Groups) -> Result<usize, Refusal>
    requires { longest_sheet ≤ length out.old }
    ensures { Lays (groups_number groups) 2625 out.old 0 out.new (as_laid result) (groups_bytes groups) }
{
    if groups.count < 1 || 64 < groups.count {
        return Err(Refusal::Sheet);
    }
    let mut at = put_little(out, 0, 1, groups.count as u64);
    for group in &groups.list[..groups.count] {
        at = put_group(out, at, *group)?;
    }
    Ok(at)
}

// The commands after the groups: at most 2 + 1,000 × 22 bytes. Each is judged by its group, so that this loop is not that of the groups.
fn put_commands(out: &mut [u8], from: usize, sheet: Sheet) -> Result<usize, Refusal>
    requires { (from + 22002 ≤ length out.old) × SmallGroups sheet.groups }
    ensures { Lays (commands_number sheet) 22002 out.old from out.new (as_laid result) (commands_bytes sheet) }
{
    if 1000 < sheet.count {
        return Err(Refusal::Sheet);
    }
    let mut at = put_little(out, from, 2, sheet.count as u64);
    for entry in &sheet.entries[..sheet.count] {
        let g = usize::from(entry.command.group);
        if sheet.groups.count <= g {
            return Err(Refusal::Sheet);
        }
        at = put_command(out, at, entry.command, entry.target, sheet.groups.list[g].n)?;
    }
    Ok(at)
}

pub fn put_sheet(out: &mut [u8], sheet: Sheet) -> Result<usize, Refusal>
    requires { longest_sheet ≤ length out.old }
    ensures { Lays (sheet_number sheet) longest_sheet out.old 0 out.new (as_laid result) (sheet_bytes sheet) }
{
    // Copied beside the sheet: without that the compiled job blanks a part of the sheet first, also where it is refused.
    let groups = sheet.groups;
    let end = put_groups(out, groups)?;
    let rest = put_commands(out, end, sheet)?;
    Ok(put_zeros(out, rest, sheet.zeros, groups.count))
}
