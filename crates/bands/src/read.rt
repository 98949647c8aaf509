// The permutation of bands.
ghost use Rattle.std.specs.Prelude.{◌≡◌};
ghost use Rattle.permutation.specs.Answers.{as_permuted};
ghost use Rattle.bands.specs.Answers.{sure_answer, OrderExactly};

use super::judge::LevelBands;
use charge::sort::sort_cells;
use permutation::answers::Permutation;
use permutation::reasons::Refusal;

// `exactly`: it is given when every choice of levels has no tie and this permutation, and only then.
pub fn read_bands(lowest: &[u16], highest: &[u16]) -> Result<Permutation, Refusal>
    ensures answer { as_permuted result ≡ sure_answer lowest.now highest.now }
    ensures exactly { OrderExactly lowest.now highest.now (as_permuted result) }
{
    let bands = LevelBands::new(lowest, highest)?;
    let n = lowest.len();
    let mut cells = [0; 20];
    sort_cells(lowest, &mut cells);
    // where all cells but one lead, the last has its place
    if !bands.lead_surely(&cells, n - 1) {
        return Err(Refusal::Unsure);
    }
    Ok(Permutation { n, cells })
}
