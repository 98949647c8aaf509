// Is a record a permutation? One pass tells, and gives each cell's spot: how many smaller cells stand before it.
ghost use Rattle.std.specs.Prelude.{◌≡◌, ◌%◌, ◌^◌, ◌≤◌, length};
ghost use Rattle.std.specs.Int.Count.{ones};
ghost use Rattle.permutation.specs.Records.{all_zero};
ghost use Rattle.permutation.specs.Spots.{leaving, spotted, checked, as_checked};
ghost use Rattle.permutation.specs.Refusals.{number_in};

use super::answers::Permutation;
use super::reasons::{Refusal, size_within};

// Do the places past a permutation's n all hold 0? For other crates too.
pub fn all_zero(past: &[u8]) -> bool
    ensures { result ≡ all_zero past.now }
{
    past.iter().all(|c| *c == 0)
}

fn bit(c: usize) -> u32
    requires { c ≤ 20 }
    ensures { result ≡ 2 ^ c }
{
    1u32 << c
}

// How many of the mask's bits below c are set.
fn ones_below(seen: u32, c: usize) -> u8
    requires { c ≤ 20 }
    ensures { result ≡ ones (seen % 2 ^ c) }
{
    (seen % bit(c)).count_ones() as u8
}

// Does each of 1 to n stand once among the n names? Muddle, or the lent spots.
fn spots_into(names: &[u8], spots: &mut [u8; 21]) -> Result<(), Refusal>
    requires { length names.now ≤ 20 }
    ensures { leaving (number_in result) spots.new ≡ spotted (length names.now) names.now }
{
    // 20 is no spot: a name not met yet
    *spots = [20; 21];
    // a mask of the names met
    let mut seen: u32 = 0;
    for name in names {
        let c = usize::from(*name);
        if !(1..=names.len()).contains(&c) || spots[c] != 20 {
            return Err(Refusal::Muddle);
        }
        spots[c] = ones_below(seen, c);
        seen += bit(c);
    }
    Ok(())
}

// The check with the spots lent: a copy of a row that was just written byte by byte waits for its bytes. Beside a refusal nothing is said of them. For other crates.
pub fn check_into(permutation: Permutation, spots: &mut [u8; 21]) -> Result<(), Refusal>
    ensures { leaving (number_in result) spots.new ≡ checked permutation }
{
    let n = size_within(permutation.n)?;
    let (names, past) = permutation.cells.split_at(n);
    if all_zero(past) {
        return spots_into(names, spots);
    }
    Err(Refusal::Muddle)
}

// The spots of a permutation, by cell name: 20, which is no spot, for a name that stands nowhere. For other crates too.
pub fn check(permutation: Permutation) -> Result<[u8; 21], Refusal>
    ensures { as_checked result ≡ checked permutation }
{
    let mut spots = [0; 21];
    check_into(permutation, &mut spots)?;
    Ok(spots)
}
