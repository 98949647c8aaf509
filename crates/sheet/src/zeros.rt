// The third section of the sheet, which a sheet need not have: the groups on the new zero.
ghost use Rattle.std.specs.Prelude.{◌≡◌, ◌+◌, ◌≤◌, length};
ghost use Rattle.sheet.specs.ZeroSection as meaning;
ghost use Rattle.sheet.specs.Parts.{numbers, as_zeros, zeros_answer, named_answer};

use super::held::old_zeros;
use permutation::reasons::Refusal;
use ranking::zero::Zero;

// The zeros of `total` groups, of which those that the numbers from a place on name are on the new zero. `low` is one past the number before, so that the numbers
// rise.
fn zeros_named(s: &[u8], from: usize, count: usize, total: usize) -> Result<[Zero; 64], Refusal>
    requires { (from + count ≤ length s.now) × (total ≤ 64) }
    ensures { as_zeros result ≡ named_answer total (numbers 1 count s.now from) }
{
    let mut zeros = old_zeros();
    let mut low: usize = 0;
    for number in &s[from..from + count] {
        let g = usize::from(*number);
        if !(low..total).contains(&g) {
            return Err(Refusal::Sheet);
        }
        zeros[g] = Zero::New;
        low = g + 1;
    }
    Ok(zeros)
}

// What stands from a place on, to the end of the sheet. For other crates too: it asks for no more groups than a sheet has.
pub fn read_zeros(s: &[u8], at: usize, total: usize) -> Result<[Zero; 64], Refusal>
    requires { total ≤ 64 }
    ensures { as_zeros result ≡ zeros_answer (meaning.zeros_at total s.now at) }
{
    if at == s.len() {
        return Ok(old_zeros());
    }
    if s.len() < at {
        return Err(Refusal::Sheet);
    }
    let count = usize::from(s[at]);
    if !(1..=total).contains(&count) {
        return Err(Refusal::Sheet);
    }
    let from = at + 1;
    if s.len() - from != count {
        return Err(Refusal::Sheet);
    }
    zeros_named(s, from, count, total)
}
