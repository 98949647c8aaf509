// The whole printed text of a sheet, in a lent buffer.
ghost use Rattle.std.specs.Prelude.{◌≡◌, ◌≤◌, length};
ghost use Rattle.io.specs.Counts.{IsPrefixLen};
ghost use Rattle.sheet.specs.Sheet.{sheet as contents};
ghost use Rattle.layout.specs.Text.{text_of};
ghost use Rattle.text.specs.Answers.{as_printed, print_answer, printed_on};
ghost use Rattle.text.specs.Claims.{text_bound};
ghost use Rattle.sheet.specs.Putting.{Puts};

use super::buffers::text_buffer;
use layout::lines::{put_commands, put_fault, put_groups};
use permutation::reasons::Refusal;
use work::work_sheet::work_sheet;

fn lay(sheet: &[u8], text: &mut [u8]) -> usize
    requires { text_bound ≤ length text.old }
    ensures puts { Puts text.old 0 text.new result (text_of (contents sheet.now)) }
    ensures short { result ≤ text_bound }
{
    match work_sheet(sheet) {
        Ok(outcome) => {
            let at = put_commands(text, outcome);
            put_groups(text, at, outcome)
        }
        Err(refusal) => put_fault(text, refusal.number()),
    }
}

// `fits`: a buffer for the longest text is never too short. `counts`: `&text[..length]` can be lent.
pub fn bench(sheet: &[u8], text: &mut [u8]) -> Result<usize, Refusal>
    ensures answer { as_printed result ≡ print_answer (text_of (contents sheet.now)) (length text.old) }
    ensures text_left { text.new ≡ printed_on (text_of (contents sheet.now)) text.old }
    ensures fits { text_bound ≤ length text.old → (as_printed result).number ≡ 0 }
    ensures counts { IsPrefixLen (as_printed result).length text.new }
{
    let mut page = text_buffer();
    let length = lay(sheet, &mut page);
    if text.len() < length {
        return Err(Refusal::Fit);
    }
    text[..length].copy_from_slice(&page[..length]);
    Ok(length)
}
