// The lines of the text. Each function answers the place after its lines, and those for other crates ask for room. A number's range or type bounds its digits, and so each
// line's length. Commands and groups have a loop each: one for both would be passed the line, its longest and the room.
ghost use Rattle.std.specs.Prelude.{◌+◌, ◌*◌, ◌≤◌, ◌<◌, length, take};
ghost use Rattle.sheet.specs.Held.{levels_of, groups_in};
ghost use Rattle.layout.specs.Text as meaning;
ghost use Rattle.sheet.specs.Standing.{GroupHeld, GroupsHeld};
ghost use Rattle.sheet.specs.Putting.{Puts};

use super::fields::{put_byte, put_field};
use charge::answers::Pushes;
use sheet::held::Group;
use work::answers::Outcome;

// The one line of a faulty sheet. Of any number, as its clause says: a `Refusal` would be a narrower argument. For `text`, which has the room.
pub fn put_fault(text: &mut [u8], number: u8) -> usize
    requires { 6 ≤ length text.old }
    ensures puts { Puts text.old 0 text.new result (meaning.fault_line number) }
    ensures short { result ≤ 6 }
{
    let a = put_byte(text, 0, b's');
    let b = put_field(text, a, u64::from(number));
    put_byte(text, b, b'\n')
}

fn put_command(text: &mut [u8], at: usize, place: usize, answer: Pushes) -> usize
    requires { (at + 22 ≤ length text.old) × (place ≤ 1000) }
    ensures puts { Puts text.old at text.new result (meaning.command_line place answer) }
    ensures short { result ≤ at + 22 }
{
    let a = put_byte(text, at, b'c');
    let b = put_field(text, a, place as u64);
    let c = put_field(text, b, u64::from(answer.number));
    let d = put_field(text, c, u64::from(answer.pushes));
    put_byte(text, d, b'\n')
}

// In decimal, where that of `encoding` puts bytes.
fn put_levels(text: &mut [u8], at: usize, levels: &[u16]) -> usize
    requires { at + 6 * length levels.now ≤ length text.old }
    ensures puts { Puts text.old at text.new result (meaning.fields levels.now) }
    ensures short { result ≤ at + 6 * length levels.now }
{
    let mut end = at;
    for level in levels {
        end = put_field(text, end, u64::from(*level));
    }
    end
}

fn put_group(text: &mut [u8], at: usize, g: usize, value: u64, group: &Group) -> usize
    requires { (at + 146 ≤ length text.old) × (g < 64) × GroupHeld group.now }
    ensures puts { Puts text.old at text.new result (meaning.group_line g value (levels_of group.now)) }
    ensures short { result ≤ at + 146 }
{
    let a = put_byte(text, at, b'g');
    let b = put_field(text, a, g as u64);
    let c = put_field(text, b, value);
    let d = put_levels(text, c, &group.levels[..group.n]);
    put_byte(text, d, b'\n')
}

// The lines of the commands, from the text's first byte on. For `text`, which has the room, of an outcome as `work` leaves it.
pub fn put_commands(text: &mut [u8], outcome: Outcome) -> usize
    requires { (outcome.count ≤ 1000) × (22 * outcome.count ≤ length text.old) }
    ensures puts { Puts text.old 0 text.new result (meaning.command_lines 1 (take outcome.count outcome.answers)) }
    ensures short { result ≤ 22 * outcome.count }
{
    let mut at = 0;
    for (i, answer) in outcome.answers[..outcome.count].iter().enumerate() {
        at = put_command(text, at, i + 1, *answer);
    }
    at
}

// The lines of the groups, after those of the commands: a loop of its own, since each line is of a group, its zero's value and its number. For `text`, as above.
pub fn put_groups(text: &mut [u8], from: usize, outcome: Outcome) -> usize
    requires { (from + 146 * outcome.groups.count ≤ length text.old) × GroupsHeld outcome.groups }
    ensures puts { Puts text.old from text.new result (meaning.group_lines 0 (take outcome.groups.count outcome.values) (groups_in outcome.groups)) }
    ensures short { result ≤ from + 146 * outcome.groups.count }
{
    let mut at = from;
    for g in 0..outcome.groups.count {
        at = put_group(text, at, g, outcome.values[g], &outcome.groups.list[g]);
    }
    at
}
