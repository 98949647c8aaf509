// The prefix of a symbol.
ghost use Rattle.std.specs.Prelude.{◌≡◌};
ghost use Rattle.symbols.specs.Answers.{prefix_answer, as_prefixed};

use super::answers::Prefix;
use super::row::prefix_row;
use permutation::reasons::Refusal;

// That of a weighted symbol is `uneven::prefix_uneven`: they have `Prefix::alone` in common, and rows of their own.
pub fn prefix(n: usize, m: u64, symbol: u64) -> Result<Prefix, Refusal>
    ensures { as_prefixed result ≡ prefix_answer n m symbol }
{
    Ok(prefix_row(n, m, symbol)?.alone())
}
