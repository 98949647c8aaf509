// The row of a symbol: its prefix, and behind it the other names. The symbol's digits, whose weights are falling factorials, choose the prefix's cells.
ghost use Rattle.std.specs.Prelude.{◌≡◌, ◌++◌, ◌≤◌, ◌<◌, length, take, drop, replicate};
ghost use Rattle.theory.specs.Factorial as factorials;
ghost use Rattle.theory.specs.Lists.{names, without};
ghost use Rattle.theory.specs.Permutation.{row};
ghost use Rattle.theory.specs.Prefix as meaning;
ghost use Rattle.symbols.specs.AnyPrefix.{row_answer};
ghost use Rattle.symbols.specs.Answers.{as_prefixed};

use super::answers::Prefix;
use super::prefix_length::prefix_length;
use permutation::insert::put_in;
use permutation::reasons::{Refusal, size_within};
use ranking::factorials::{falling_factorial, small_factorial};

// The names 1 to n go to the first n places.
fn name_cells(cells: &mut [u8; 20], n: usize)
    requires { n ≤ 20 }
    ensures { cells.new ≡ names n ++ drop n cells.old }
{
    for (i, cell) in cells[..n].iter_mut().enumerate() {
        *cell = i as u8 + 1;
    }
}

// The names 1 to n stand in the first n places. Those of prefix number s come to the front: the digits of s choose one name after
// another among those that are left, which stay in their sequence. There are `count` prefixes of length p.
fn choose(cells: &mut [u8; 20], n: usize, p: usize, count: u64, s: u64)
    requires { (n ≤ 20) × (p ≤ n) × (count ≡ factorials.falling n p) × (s < count) × (take n cells.old ≡ names n) }
    ensures { cells.new ≡ meaning.prefix_at n p s ++ (without (meaning.prefix_at n p s) (names n) ++ drop n cells.old) }
{
    let mut weight = count;
    let mut rest = s;
    for i in 0..p {
        weight /= (n - i) as u64;
        let from = i + (rest / weight) as usize;
        let c = cells[from];
        put_in(cells, from, i, c);
        rest %= weight;
    }
}

// The row of prefix number s of length p: the prefix, the other names ascending behind it, and zeros past them. For other crates too: it asks for at most twenty
// cells, p at most n (as `falling_factorial` does), and s below `count`, which is how many prefixes of length p there are.
pub fn numbered_row(n: usize, p: usize, count: u64, s: u64) -> [u8; 20]
    requires { (n ≤ 20) × (p ≤ n) × (count ≡ factorials.falling n p) × (s < count) }
    ensures { result ≡ row (meaning.prefix_at n p s ++ without (meaning.prefix_at n p s) (names n)) }
{
    let mut cells = [0u8; 20];
    name_cells(&mut cells, n);
    choose(&mut cells, n, p, count, s);
    cells
}

// The other names ascend; zeros past them.
pub fn prefix_row(n: usize, m: u64, symbol: u64) -> Result<Prefix, Refusal>
    ensures { as_prefixed result ≡ row_answer n m symbol }
{
    size_within(n)?;
    // an m of 0 as well: it has no symbol
    if small_factorial(n) < m || m <= symbol {
        return Err(Refusal::Value);
    }
    let length = prefix_length(n, m);
    let count = falling_factorial(n, length);
    let cells = numbered_row(n, length, count, symbol);
    Ok(Prefix { length, cells })
}
