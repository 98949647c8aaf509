// The best lengths of the prefixes of weighted symbols. Each function over lent weights asks for at most 64, which its rows have places for.
ghost use Rattle.std.specs.Prelude.{◌≡◌, ◌*◌, ◌≤◌, length};
ghost use Rattle.uneven.specs.Codebook.{HasTails, PlanAsked, PlanGiven};

use ranking::factorials::small_factorial;

// Lengths, from an index on, and their sum by weight.
#[derive(Clone, Copy)]
pub struct Plan {
    pub cost: u32,
    pub lengths: [u8; 64],
}

// The sums of the weights from each index on.
fn tail_sums(heavy: &[u16]) -> [u32; 65]
    requires { length heavy.now ≤ 64 }
    ensures { HasTails heavy.now result }
{
    let mut tails = [0u32; 65];
    for (i, weight) in heavy.iter().enumerate().rev() {
        tails[i] = tails[i + 1] + u32::from(*weight);
    }
    tails
}

// Weights from heavy to light, whose best lengths on n cells are wanted.
#[derive(Clone, Copy)]
pub struct Search<'a> {
    n: usize,
    heavy: &'a [u16],
    // the sums of the weights from each index on: worked out once, and so kept beside them
    tails: [u32; 65],
}

impl<'a> Search<'a> {
    pub fn new(n: usize, heavy: &'a [u16]) -> Search<'a>
        requires { length heavy.now ≤ 64 }
        ensures cells { result.n ≡ n }
        ensures weights { result.heavy.now ≡ heavy.now }
        ensures tails { HasTails heavy.now result.tails }
    {
        let tails = tail_sums(heavy);
        Search { n, heavy, tails }
    }

    // Lengths from n - h on for the symbols from index k on, with b permutations left: all the shortest where they fit; otherwise the first symbol has it, where that
    // leaves room and costs no more than longer ones for all.
    pub fn plan_lengths(&self, h: usize, k: usize, b: u64) -> Plan
        requires { PlanAsked self.now.n h self.now.heavy.now self.now.tails k b }
        ensures { PlanGiven self.now.n h self.now.heavy.now k b result }
    {
        let left = (self.heavy.len() - k) as u64;
        let here = (self.n - h) as u8;
        let unit = small_factorial(h);
        if left * unit <= b {
            return Plan {
                cost: self.tails[k] * u32::from(here),
                lengths: [here; 64],
            };
        }
        let deeper = self.plan_lengths(h - 1, k, b);
        if left - 1 + unit <= b {
            let mut first = self.plan_lengths(h, k + 1, b - unit);
            first.cost += u32::from(self.heavy[k]) * u32::from(here);
            if first.cost <= deeper.cost {
                first.lengths[k] = here;
                return first;
            }
        }
        deeper
    }
}
