// One command of the sheet. A kind is added in `put_command`, with a function of its own for its bytes, if it has more than its head.
ghost use Rattle.std.specs.Prelude.{◌≡◌, ◌+◌, ◌≤◌, length, take};
ghost use mathlib.Core.List.{[], flat_map};
ghost use Rattle.permutation.specs.Records.{list_of};
ghost use Rattle.sheet.specs.Bytes.{bytes_of};
ghost use Rattle.sheet.specs.Putting.{Puts};
ghost use Rattle.sheet.specs.declared.held.Action.TheVariants.{Count, Rewrite, Store};
ghost use Rattle.encoding.specs.SheetBytes.{head_bytes, action_bytes};
ghost use Rattle.encoding.specs.Faults.{target_number, action_number};
ghost use Rattle.encoding.specs.Lays.{as_laid, Lays};

use super::little::put_little;
use permutation::answers::Permutation;
use permutation::reasons::Refusal;
use permutation::validity::all_zero;
use sheet::held::{Action, Command};

// The kind byte comes first, then the group byte. A kind is a byte of the sheet, as in `sheet::commands`.
fn put_head(out: &mut [u8], at: usize, kind: u8, group: u8) -> usize
    requires { at + 2 ≤ length out.old }
    ensures { Puts out.old at out.new result (head_bytes kind group) }
{
    let next = put_little(out, at, 1, u64::from(kind));
    put_little(out, next, 1, u64::from(group))
}

fn put_count(out: &mut [u8], at: usize, group: u8, k: u32) -> usize
    requires { at + 22 ≤ length out.old }
    ensures { Puts out.old at out.new result (action_bytes group (Count k) []) }
{
    let body = put_head(out, at, 1, group);
    put_little(out, body, 4, u64::from(k))
}

// The first n names of a row, of a byte each. All twenty are copied, since a fixed length is faster: what is put next goes over the others.
fn put_names(out: &mut [u8], at: usize, cells: &[u8; 20], n: usize) -> usize
    requires { (at + 20 ≤ length out.old) × (n ≤ 20) }
    ensures { Puts out.old at out.new result (flat_map (bytes_of 1) (take n cells.now)) }
{
    out[at..at + 20].copy_from_slice(cells);
    at + n
}

// The target is judged here, its n and that 0 stands past it; its names are put as they stand.
fn put_rewrite(
    out: &mut [u8],
    at: usize,
    group: u8,
    n: usize,
    target: Permutation,
) -> Result<usize, Refusal>
    requires { (at + 22 ≤ length out.old) × (n ≤ 20) }
    ensures { Lays (target_number n target) 22 out.old at out.new (as_laid result) (action_bytes group Rewrite (list_of target)) }
{
    if target.n != n {
        return Err(Refusal::Fit);
    }
    if !all_zero(&target.cells[n..]) {
        return Err(Refusal::Muddle);
    }
    let body = put_head(out, at, 2, group);
    Ok(put_names(out, body, &target.cells, n))
}

fn put_store(out: &mut [u8], at: usize, group: u8, m: u64, symbol: u64) -> usize
    requires { at + 22 ≤ length out.old }
    ensures { Puts out.old at out.new result (action_bytes group (Store m symbol) []) }
{
    let body = put_head(out, at, 3, group);
    let next = put_little(out, body, 8, m);
    put_little(out, next, 8, symbol)
}

// A command on a group of n cells; gives the place after it. For `writer`, which has the room.
pub fn put_command(
    out: &mut [u8],
    at: usize,
    command: Command,
    target: Permutation,
    n: usize,
) -> Result<usize, Refusal>
    requires { (at + 22 ≤ length out.old) × (n ≤ 20) }
    ensures { Lays (action_number n command.action target) 22 out.old at out.new (as_laid result) (action_bytes command.group command.action (list_of target)) }
{
    let Command { group, action } = command;
    match action {
        Action::Count(k) => Ok(put_count(out, at, group, k)),
        Action::Rewrite => put_rewrite(out, at, group, n, target),
        Action::Store(m, symbol) => Ok(put_store(out, at, group, m, symbol)),
        Action::ChangeZero => Ok(put_head(out, at, 4, group)),
    }
}
