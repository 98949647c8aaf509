// What a code is judged by.
ghost use Rattle.std.specs.Prelude.{◌≡◌, ◌≤◌};
ghost use Rattle.symbols.specs.ByCode.{as_code, code_judged};

use super::prefix_length::prefix_length;
use permutation::reasons::Refusal;
use ranking::factorials::small_factorial;

// The length of the prefixes of a code of m symbols on n cells, or Value. For other crates too: it asks for at most twenty cells.
pub fn judge_code(n: usize, m: u64) -> Result<usize, Refusal>
    requires { n ≤ 20 }
    ensures { as_code result ≡ code_judged n m }
{
    if !(1..=small_factorial(n)).contains(&m) {
        return Err(Refusal::Value);
    }
    Ok(prefix_length(n, m))
}
