// What a job on levels is judged by, before its first push: size, tie, the highest level, and a count-up call as a whole. And the lowest level, for other crates.
ghost use Rattle.std.specs.Prelude.{◌≡◌};
ghost use Rattle.theory.specs.Levels as meaning;
ghost use Rattle.permutation.specs.Refusals.{number_in};
ghost use Rattle.charge.specs.Counting.{call_judged, as_call};

use permutation::reasons::{Refusal, size_within};

// For other crates too, so that there is one tie test.
pub fn tied(levels: &[u16]) -> bool
    ensures { result ≡ meaning.tied levels.now }
{
    for (i, level) in levels.iter().enumerate() {
        if levels[i + 1..].contains(level) {
            return true;
        }
    }
    false
}

// Size or Tie, for levels that have no permutation. For other crates too.
pub fn read_number(levels: &[u16]) -> Result<(), Refusal>
    ensures { number_in result ≡ meaning.read_number levels.now }
{
    size_within(levels.len())?;
    if tied(levels) {
        return Err(Refusal::Tie);
    }
    Ok(())
}

// The highest level, and 0 of none. For other crates too.
pub fn highest(levels: &[u16]) -> u16
    ensures { result ≡ meaning.highest levels.now }
{
    levels.iter().copied().max().unwrap_or(0)
}

// A count-up call by k: the highest level, where the call is not refused. For other crates too.
pub fn judge_call(levels: &[u16], k: u32) -> Result<u16, Refusal>
    ensures { as_call result ≡ call_judged levels.now k }
{
    read_number(levels)?;
    let top = highest(levels);
    if u32::from(u16::MAX - top) < k {
        return Err(Refusal::Ceiling);
    }
    Ok(top)
}

// The lowest level, and 0 of none. `max` and `min` are methods of their own in the library too. For other crates too.
pub fn lowest(levels: &[u16]) -> u16
    ensures { result ≡ meaning.lowest levels.now }
{
    levels.iter().copied().min().unwrap_or(0)
}
