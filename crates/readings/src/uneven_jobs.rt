// Symbols by weights: what each job answers, and the lent levels as it left them.
use super::answers::{Answer, tell_number};
use super::level_jobs::left;
use super::numbers::Numbers;
use super::text::Text;
use std::fmt::{Error, Result};
use symbols::answers::Prefixed;
use uneven::prefix_uneven::prefix_uneven;
use uneven::read_uneven::read_uneven;
use uneven::store_uneven::store_uneven;

// A symbol, how many there are, n, and the weights.
pub fn on_prefix_uneven(numbers: &Numbers, text: &mut Text) -> Result {
    let mut given = numbers.given();
    let symbol = given.number();
    let m = given.number();
    let n = given.length();
    numbers.on_levels(3, |weights| {
        Prefixed::from(prefix_uneven(n, weights, m, symbol)).tell(text)
    })
}

// A symbol; how many there are; how many levels; these; then the weights.
pub fn on_store_uneven(numbers: &Numbers, text: &mut Text) -> Result {
    let mut given = numbers.given();
    let symbol = given.number();
    let m = given.number();
    let n = given.length();
    numbers.on_levels(3, |lent| {
        let (levels, weights) = lent.split_at_mut_checked(n).ok_or(Error)?;
        left(store_uneven(levels, weights, m, symbol), levels, text)
    })
}

// How many symbols there are; how many levels; these; then the weights.
pub fn on_read_uneven(numbers: &Numbers, text: &mut Text) -> Result {
    let mut given = numbers.given();
    let m = given.number();
    let n = given.length();
    numbers.on_levels(2, |lent| {
        let (levels, weights) = lent.split_at_checked(n).ok_or(Error)?;
        tell_number(read_uneven(levels, weights, m), text)
    })
}
