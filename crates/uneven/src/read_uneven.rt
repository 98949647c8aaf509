// The weighted symbol whose prefix leads the permutation of levels.
ghost use Rattle.std.specs.Prelude.{◌≡◌, IfOk, length};
ghost use Rattle.theory.specs.Reasons.{idle};
ghost use Rattle.theory.specs.Levels.{permutation_of};
ghost use Rattle.permutation.specs.Records.{list_of, record_number};
ghost use Rattle.permutation.specs.Refusals.{number_in};
ghost use Rattle.symbols.specs.Answers.{as_symbol};
ghost use Rattle.uneven.specs.Answers.{uneven_symbol};
ghost use Rattle.prefixcodes.specs.Claims.{SymbolBy, IdleBy};
ghost use Rattle.uneven.specs.Codebook.{HasCode, uneven_read};

use super::codebook::Codebook;
use super::judge::{misfit, range_number};
use charge::read::read;
use permutation::answers::Permutation;
use permutation::reasons::Refusal;
use permutation::validity::check;
use symbols::number::prefix_number;

// A permutation is read by the code of the weights.
fn symbol_of(weights: &[u16], permutation: Permutation) -> Result<u64, Refusal>
    requires { HasCode permutation.n weights.now × (record_number permutation ≡ 0) }
    ensures { as_symbol result ≡ uneven_read permutation.n weights.now (list_of permutation) }
{
    let Permutation { n, cells } = permutation;
    // it is a permutation: only its spots are wanted
    let spots = check(permutation)?;
    let number = prefix_number(&cells, &spots, n, n);
    let book = Codebook::new(n, weights);
    let Some(k) = book.leading_index(n, weights.len(), number) else {
        return Err(Refusal::Idle);
    };
    Ok(u64::from(book.symbols[k]))
}

// Not one function with `symbols::read_symbol`: here size and fit are judged before the levels. `by_code`: the prefix of the symbol that is answered leads the permutation, and that of no other; an idle one begins with no symbol's prefix.
pub fn read_uneven(levels: &[u16], weights: &[u16], m: u64) -> Result<u64, Refusal>
    ensures answer { as_symbol result ≡ uneven_symbol levels.now weights.now m }
    ensures by_code { IfOk result (λ s. SymbolBy (length levels.now) weights.now (permutation_of levels.now) s) }
    ensures none { number_in result ≡ idle → IdleBy (length levels.now) weights.now (permutation_of levels.now) }
{
    let n = levels.len();
    misfit(n, weights.len(), m)?;
    let permutation = read(levels)?;
    range_number(n, m)?;
    symbol_of(weights, permutation)
}
