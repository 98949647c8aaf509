// The code of weighted symbols: worked out, and asked for a prefix or for the index that a permutation has. How many cells and symbols there are, the group and the
// lent weights tell: the methods ask for at most 8 and 64.
ghost use Rattle.std.specs.Prelude.{◌≡◌, ℕ, ◌≤◌, ◌<◌, length, get_or, take, IfSome, unwrap_or};
ghost use Rattle.prefixcodes.specs.Leaves.{leaves};
ghost use Rattle.uneven.specs.Codebook.{HasCode, HoldsCode, IndexLed};

use super::by_weight::sort_symbols;
use super::lengths::Search;
use ranking::factorials::small_factorial;

// The symbols from heavy to light, and the lengths of their prefixes: two rows of fixed memory, since the search gives the lengths as a row of their own, and how many
// there are the lent weights tell.
#[derive(Clone, Copy)]
pub struct Codebook {
    pub symbols: [u8; 64],
    pub lengths: [u8; 64],
}

impl Codebook {
    pub fn new(n: usize, weights: &[u16]) -> Codebook
        requires { HasCode n weights.now }
        ensures { HoldsCode n weights.now result.symbols result.lengths }
    {
        let mut symbols = [0u8; 64];
        let mut heavy = [0u16; 64];
        sort_symbols(weights, &mut symbols, &mut heavy);
        let heavy = &heavy[..weights.len()];
        let lengths = Search::new(n, heavy)
            .plan_lengths(n - 1, 0, small_factorial(n))
            .lengths;
        Codebook { symbols, lengths }
    }

    // How many permutations the first k prefixes lead: a sum that stops at a prefix, where `leading_index` stops at a number.
    pub fn led_before(&self, n: usize, k: usize) -> u64
        requires { (n ≤ 8) × (k ≤ 64) × ((i : ℕ) → i < k → get_or self.now.lengths i 0 ≤ n) }
        ensures { result ≡ leaves n (take k self.now.lengths) }
    {
        let mut led: u64 = 0;
        for length in &self.lengths[..k] {
            led += small_factorial(n - usize::from(*length));
        }
        led
    }

    // The index of the prefix that leads the permutation with this number among all in lexicographic sequence, where there are m prefixes. The prefixes lead the
    // permutations from number 0 on, one after another.
    pub fn leading_index(&self, n: usize, m: usize, number: u64) -> Option<usize>
        requires { (n ≤ 8) × (m ≤ 64) × ((i : ℕ) → i < m → get_or self.now.lengths i 0 ≤ n) }
        ensures index { IndexLed n (take m self.now.lengths) number (unwrap_or result m) }
        ensures found { IfSome result (λ k. k < m) }
    {
        let mut led: u64 = 0;
        for (k, length) in self.lengths[..m].iter().enumerate() {
            led += small_factorial(n - usize::from(*length));
            if number < led {
                return Some(k);
            }
        }
        None
    }
}
