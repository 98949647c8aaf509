// One group of the sheet.
ghost use Rattle.std.specs.Prelude.{◌≡◌, ◌+◌, ◌*◌, ◌≤◌, length};
ghost use Rattle.theory.specs.Permutation.{row};
ghost use Rattle.sheet.specs.Sheet as meaning;
ghost use Rattle.sheet.specs.Parts.{as_group, group_answer, numbers};

use super::held::Group;
use super::little::little;
use charge::judge::tied;
use permutation::reasons::{Refusal, size_within};

// n levels of two bytes from a place on, in a row of twenty. They are put together, where `names_at` copies: no form is common to both.
fn levels_at(s: &[u8], from: usize, n: usize) -> [u16; 20]
    requires { (n ≤ 20) × (from + 2 * n ≤ length s.now) }
    ensures { result ≡ row (numbers 2 n s.now from) }
{
    let mut levels = [0u16; 20];
    for i in 0..n {
        levels[i] = little(s, from + 2 * i, 2) as u16;
    }
    levels
}

// A group, and the place after it. For other crates too.
pub fn read_group(s: &[u8], at: usize) -> Result<(Group, usize), Refusal>
    ensures { as_group result ≡ group_answer (meaning.group s.now at) }
{
    if s.len() <= at {
        return Err(Refusal::Sheet);
    }
    let n = size_within(usize::from(s[at]))?;
    let from = at + 1;
    if s.len() - from < 2 * n {
        return Err(Refusal::Sheet);
    }
    let levels = levels_at(s, from, n);
    if tied(&levels[..n]) {
        return Err(Refusal::Tie);
    }
    Ok((Group { n, levels }, from + 2 * n))
}
