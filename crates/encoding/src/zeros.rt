// The third section of the sheet: the groups on the new zero.
ghost use mathlib.Core.List.{flat_map};
ghost use Rattle.std.specs.Prelude.{◌+◌, ◌≤◌, length, take};
ghost use Rattle.sheet.specs.Bytes.{bytes_of};
ghost use Rattle.sheet.specs.Putting.{Puts};
ghost use Rattle.encoding.specs.SheetBytes.{number_on_new, numbers_on_new, section_bytes};

use super::little::put_little;
use ranking::zero::Zero;

// The number of a group on the new zero, and nothing of one on the old: one arm a zero, since a closure for each would be a table of functions.
fn put_number(out: &mut [u8], at: usize, g: usize, zero: Zero) -> usize
    requires { at + 1 ≤ length out.old }
    ensures { Puts out.old at out.new result (flat_map (bytes_of 1) (number_on_new g zero)) }
{
    match zero {
        Zero::Old => at,
        Zero::New => put_little(out, at, 1, g as u64),
    }
}

// The section of the first `total` zeros, or nothing where none is new. The numbers are put behind the place of their count, which is known after them. For
// `writer`, which has the room.
pub fn put_zeros(out: &mut [u8], at: usize, zeros: [Zero; 64], total: usize) -> usize
    requires { (at + 65 ≤ length out.old) × (total ≤ 64) }
    ensures puts { Puts out.old at out.new result (section_bytes (numbers_on_new 0 (take total zeros))) }
    ensures short { result ≤ at + 65 }
{
    let first = at + 1;
    let mut end = first;
    for (g, zero) in zeros[..total].iter().enumerate() {
        end = put_number(out, end, g, *zero);
    }
    if end == first {
        return at;
    }
    out[at] = (end - first) as u8;
    end
}
