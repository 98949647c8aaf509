// The prefix of a weighted symbol.
ghost use Rattle.std.specs.Prelude.{◌≡◌, IfOk, take};
ghost use Rattle.symbols.specs.Answers.{as_prefixed};
ghost use Rattle.uneven.specs.Answers.{uneven_prefix};
ghost use Rattle.prefixcodes.specs.Claims.{PrefixBy};

use super::row::uneven_row;
use permutation::reasons::Refusal;
use symbols::answers::Prefix;

// `by_code`: it is the symbol's prefix in the code that request 12 asks for, of which there is just one.
pub fn prefix_uneven(n: usize, weights: &[u16], m: u64, symbol: u64) -> Result<Prefix, Refusal>
    ensures answer { as_prefixed result ≡ uneven_prefix n weights.now m symbol }
    ensures by_code { IfOk result (λ p. PrefixBy n weights.now symbol (take p.length p.cells)) }
{
    Ok(uneven_row(n, weights, m, symbol)?.alone())
}
