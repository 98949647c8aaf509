// The jobs on bands, each a cell's lowest and highest level.
use super::answers::{Answer, tell_number};
use super::numbers::Numbers;
use super::text::Text;
use bands::read::read_bands;
use bands::read_symbol::read_symbol_bands;
use permutation::answers::Permuted;
use std::fmt::{Error, Result};

// How many lowest levels there can be.
const MOST: usize = 62;

// The lowest levels, n of them, and the highest.
fn parts(levels: &[u16], n: usize) -> std::result::Result<(&[u16], &[u16]), Error> {
    if MOST < n {
        return Err(Error);
    }
    levels.split_at_checked(n).ok_or(Error)
}

// How many lowest levels; these; then the highest.
pub fn on_read_bands(numbers: &Numbers, text: &mut Text) -> Result {
    let n = numbers.given().length();
    numbers.on_levels(1, |levels| {
        let (lowest, highest) = parts(levels, n)?;
        Permuted::from(read_bands(lowest, highest)).tell(text)
    })
}

// How many symbols there are, and bands as above.
pub fn on_read_symbol_bands(numbers: &Numbers, text: &mut Text) -> Result {
    let mut given = numbers.given();
    let m = given.number();
    let n = given.length();
    numbers.on_levels(2, |levels| {
        let (lowest, highest) = parts(levels, n)?;
        tell_number(read_symbol_bands(lowest, highest, m), text)
    })
}
