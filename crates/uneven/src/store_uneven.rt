// Store a weighted symbol: its prefix comes to the top by the fewest pushes.
ghost use Rattle.std.specs.Prelude.{◌≡◌, IfOk};
ghost use Rattle.theory.specs.Spent.{Spends};
ghost use Rattle.charge.specs.Answers.{as_pushes};
ghost use Rattle.uneven.specs.Answers.{uneven_store, uneven_levels, UnevenStored};

use super::judge::misfit;
use super::row::uneven_row;
use charge::answers::Spent;
use permutation::reasons::Refusal;
use symbols::store::store_found;

// `stored`: whose prefix it is, what the levels then are read as, that no shorter row of pushes brings the prefix to the top, and that the symbol is read back.
pub fn store_uneven(
    levels: &mut [u16],
    weights: &[u16],
    m: u64,
    symbol: u64,
) -> Result<Spent, Refusal>
    ensures answer { as_pushes result ≡ uneven_store levels.old weights.now m symbol }
    ensures levels_left { levels.new ≡ uneven_levels levels.old weights.now m symbol }
    ensures stored { IfOk result (λ done. UnevenStored levels.old weights.now m symbol levels.new done.pushes) }
    ensures spent { Spends levels.old levels.new (as_pushes result).charge }
{
    misfit(levels.len(), weights.len(), m)?;
    store_found(levels, uneven_row(levels.len(), weights, m, symbol))
}
