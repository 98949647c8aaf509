// What a job with weights is refused for by its numbers alone.
ghost use Rattle.std.specs.Prelude.{◌≡◌, ◌≤◌};
ghost use Rattle.permutation.specs.Refusals.{number_in};
ghost use Rattle.uneven.specs.Answers as meaning;

use permutation::reasons::Refusal;
use ranking::factorials::small_factorial;

// Size or Fit. `entries` is the length of the weight list.
pub fn misfit(n: usize, entries: usize, m: u64) -> Result<(), Refusal>
    ensures { number_in result ≡ meaning.misfit n entries m }
{
    if !(2..=8).contains(&n) {
        return Err(Refusal::Size);
    }
    if entries as u64 != m {
        return Err(Refusal::Fit);
    }
    Ok(())
}

// Value where m is out of its range.
pub fn range_number(n: usize, m: u64) -> Result<(), Refusal>
    requires { n ≤ 20 }
    ensures { number_in result ≡ meaning.range_of n m }
{
    if !(2..=64).contains(&m) || small_factorial(n) < m {
        return Err(Refusal::Value);
    }
    Ok(())
}
