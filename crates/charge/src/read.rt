// The permutation of levels.
ghost use Rattle.std.specs.Prelude.{◌≡◌};
ghost use Rattle.permutation.specs.Answers.{as_permuted};
ghost use Rattle.charge.specs.Answers.{read_answer};

use super::judge::read_number;
use super::sort::sort_cells;
use permutation::answers::Permutation;
use permutation::reasons::Refusal;

pub fn read(levels: &[u16]) -> Result<Permutation, Refusal>
    ensures { as_permuted result ≡ read_answer levels.now }
{
    read_number(levels)?;
    let mut cells = [0; 20];
    sort_cells(levels, &mut cells);
    Ok(Permutation {
        n: levels.len(),
        cells,
    })
}
