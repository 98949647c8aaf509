// The row of a weighted symbol: its prefix, and behind it the other names.
ghost use Rattle.std.specs.Prelude.{◌≡◌, ◌<◌, Ok, length};
ghost use Rattle.symbols.specs.Answers.{as_prefixed};
ghost use Rattle.uneven.specs.Codebook.{HasCode, symbol_row, uneven_row};

use super::by_weight::index_of;
use super::codebook::Codebook;
use super::judge::{misfit, range_number};
use permutation::reasons::Refusal;
use ranking::factorials::{falling_factorial, small_factorial};
use symbols::answers::Prefix;
use symbols::row::numbered_row;

// The prefixes before that of symbol s lead the permutations before its first one.
fn symbol_row(n: usize, weights: &[u16], s: usize) -> Prefix
    requires { HasCode n weights.now × (s < length weights.now) }
    ensures { as_prefixed (Ok result) ≡ symbol_row n weights.now s }
{
    let book = Codebook::new(n, weights);
    let index = index_of(weights, s);
    let length = usize::from(book.lengths[index]);
    let before = book.led_before(n, index);
    let count = falling_factorial(n, length);
    let cells = numbered_row(n, length, count, before / small_factorial(n - length));
    Prefix { length, cells }
}

// Not one function with `symbols::row::prefix_row`: this code has reasons and lengths of its own.
pub fn uneven_row(n: usize, weights: &[u16], m: u64, symbol: u64) -> Result<Prefix, Refusal>
    ensures { as_prefixed result ≡ uneven_row n weights.now m symbol }
{
    misfit(n, weights.len(), m)?;
    range_number(n, m)?;
    if m <= symbol {
        return Err(Refusal::Value);
    }
    Ok(symbol_row(n, weights, symbol as usize))
}
