// One group of the sheet.
ghost use mathlib.Core.List.{flat_map};
ghost use Rattle.std.specs.Prelude.{◌+◌, ◌*◌, ◌≤◌, length};
ghost use Rattle.sheet.specs.Bytes.{bytes_of};
ghost use Rattle.sheet.specs.Putting.{Puts};
ghost use Rattle.encoding.specs.SheetBytes.{group_bytes};
ghost use Rattle.encoding.specs.Faults.{group_number};
ghost use Rattle.encoding.specs.Lays.{as_laid, Lays};

use super::little::put_little;
use charge::judge::tied;
use permutation::reasons::{Refusal, size_within};
use sheet::held::Group;

// Levels in two bytes each, where `put_names` copies bytes.
fn put_levels(out: &mut [u8], at: usize, levels: &[u16]) -> usize
    requires { at + 2 * length levels.now ≤ length out.old }
    ensures { Puts out.old at out.new result (flat_map (bytes_of 2) levels.now) }
{
    let mut end = at;
    for level in levels {
        end = put_little(out, end, 2, u64::from(*level));
    }
    end
}

// Gives the place after the group. For `writer`, which has the room.
pub fn put_group(out: &mut [u8], at: usize, group: Group) -> Result<usize, Refusal>
    requires { at + 41 ≤ length out.old }
    ensures { Lays (group_number group) 41 out.old at out.new (as_laid result) (group_bytes group) }
{
    let n = size_within(group.n)?;
    let levels = &group.levels[..n];
    if tied(levels) {
        return Err(Refusal::Tie);
    }
    let from = put_little(out, at, 1, n as u64);
    Ok(put_levels(out, from, levels))
}
