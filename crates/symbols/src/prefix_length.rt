// The length of the prefixes of a code.
ghost use Rattle.std.specs.Prelude.{◌≡◌, ◌≤◌};
ghost use Rattle.theory.specs.Factorial as factorials;
ghost use Rattle.theory.specs.Prefix as meaning;

use ranking::factorials::small_factorial;

// The smallest p with n!/(n-p)! at least m, which is to say (n-p)! at most n!/m: one division serves the whole search.
pub fn prefix_length(n: usize, m: u64) -> usize
    requires { (n ≤ 20) × (1 ≤ m) × (m ≤ factorials.factorial n) }
    ensures { result ≡ meaning.prefix_length n m }
{
    let limit = small_factorial(n) / m;
    (0..n)
        .find(|p| small_factorial(n - *p) <= limit)
        .unwrap_or(n)
}
