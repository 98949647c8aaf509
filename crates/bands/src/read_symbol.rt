// The symbol of bands.
ghost use Rattle.std.specs.Prelude.{◌≡◌};
ghost use Rattle.symbols.specs.Answers.{as_symbol};
ghost use Rattle.bands.specs.Answers.{sure_symbol_answer, SymbolExactly};

use super::judge::LevelBands;
use charge::sort::sort_cells;
use permutation::answers::Permutation;
use permutation::reasons::Refusal;
use symbols::code::judge_code;
use symbols::read_symbol::leading_symbol;

// Not one function with `symbols::read_symbol`: here bands are judged, and the code before the order. `exactly`: it is given when the cells of its prefix lead in every choice of levels, and only then.
pub fn read_symbol_bands(lowest: &[u16], highest: &[u16], m: u64) -> Result<u64, Refusal>
    ensures answer { as_symbol result ≡ sure_symbol_answer lowest.now highest.now m }
    ensures exactly { SymbolExactly lowest.now highest.now m (as_symbol result) }
{
    let bands = LevelBands::new(lowest, highest)?;
    let n = lowest.len();
    let p = judge_code(n, m)?;
    let mut cells = [0; 20];
    sort_cells(lowest, &mut cells);
    if !bands.lead_surely(&cells, p) {
        return Err(Refusal::Unsure);
    }
    leading_symbol(Permutation { n, cells }, m, p)
}
