// A held sheet in a lent list of bytes. `round_trips` follows from the two clauses before it, and says what `read_sheet` makes of what was written. `counts`:
// `&out[..length]` can be lent. The page is of fixed length, since no memory is allocated.
ghost use Rattle.std.specs.Prelude.{◌≡◌, ◌≤◌, length};
ghost use Rattle.writer.specs.Answers.{write_answer, written_on, as_written};
ghost use Rattle.writer.specs.RoundTrips.{RoundTrips};

use super::page::put_sheet;
use permutation::reasons::Refusal;
use sheet::held::Sheet;

pub fn write_sheet(sheet: Sheet, out: &mut [u8]) -> Result<usize, Refusal>
    ensures answer { as_written result ≡ write_answer sheet (length out.old) }
    ensures out_left { out.new ≡ written_on sheet out.old }
    ensures round_trips { RoundTrips sheet out.old (as_written result) out.new }
    ensures counts { (as_written result).length ≤ length out.new }
{
    let mut page = [0; 24692];
    let length = put_sheet(&mut page, sheet)?;
    if out.len() < length {
        return Err(Refusal::Paper);
    }
    out[..length].copy_from_slice(&page[..length]);
    Ok(length)
}
