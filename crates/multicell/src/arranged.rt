// Sizes in their ranges, and lists that are arrangements.
ghost use Rattle.std.specs.Prelude.{◌≡◌, ◌*◌, true, cond, length, IfOk};
ghost use Rattle.permutation.specs.Refusals.{number_in};
ghost use Rattle.theory.specs.Reasons.{done, size};
ghost use Rattle.multicell.specs.Arrangement.{in_range, used_each};

use permutation::reasons::Refusal;

fn in_range(q: usize, z: usize) -> bool
    ensures { result ≡ in_range q z }
{
    (2..=16).contains(&q) && (1..=16).contains(&z) && q * z <= 64
}

// q levels, each used by z cells.
#[derive(Clone, Copy)]
pub struct Sizes {
    q: usize,
    z: usize,
    ghost ranged: { in_range q z ≡ true },
}

impl Sizes {
    // Size where they are out of their ranges.
    pub fn new(q: usize, z: usize) -> Result<Sizes, Refusal>
        ensures number { number_in result ≡ cond (in_range q z) done size }
        ensures made { IfOk result (λ sizes. (sizes.q ≡ q) × (sizes.z ≡ z)) }
    {
        if !in_range(q, z) {
            return Err(Refusal::Size);
        }
        Ok(Sizes { q, z })
    }

    // How many cells an arrangement has.
    pub fn cells(&self) -> usize
        ensures { result ≡ self.now.q * self.now.z }
    {
        self.q * self.z
    }

    // Is each level from 1 to q used z times by these cells? One pass: a level that is none of these, or is met once more than z times, rules it out.
    pub fn used_each(&self, cells: &[u8]) -> bool
        requires { length cells.now ≡ self.now.q * self.now.z }
        ensures { result ≡ used_each self.now.q self.now.z cells.now }
    {
        // by level: how many cells that have it were met
        let mut met = [0; 17];
        for cell in cells {
            let level = usize::from(*cell);
            if level == 0 || self.q < level || met[level] == self.z {
                return false;
            }
            met[level] += 1;
        }
        true
    }
}
