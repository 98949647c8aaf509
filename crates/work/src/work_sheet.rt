// Read a sheet and work through it.
ghost use Rattle.std.specs.Prelude.{◌≡◌};
ghost use Rattle.sheet.specs.Sheet as meaning;
ghost use Rattle.work.specs.Answers.{as_worked, work_answer};
ghost use Rattle.work.specs.Claims.{ChangeOf};

use super::acting::work;
use super::answers::Outcome;
use permutation::reasons::Refusal;
use reader::read_sheet::read_into;
use sheet::held::no_sheet;

// The sheet is filled where it stands: a `Result` of a whole one is copied from hand to hand, and filled with zeros where it is refused. A `match` where `?` would do,
// so that what a faulty sheet is answered stands in a line of its own.
pub fn work_sheet(bytes: &[u8]) -> Result<Outcome, Refusal>
    ensures answer { as_worked result ≡ work_answer (meaning.sheet bytes.now) }
    ensures change_over { ChangeOf bytes.now (as_worked result) }
{
    let mut sheet = no_sheet();
    match read_into(bytes, &mut sheet) {
        Ok(()) => {}
        Err(refusal) => return Err(refusal),
    }
    Ok(work(&sheet))
}
