// The jobs on permutations that are given more than the record.
use super::answers::{Answer, tell_number};
use super::numbers::Given;
use super::text::Text;
use permutation::answers::Permuted;
use permutation::push::push;
use ranking::permutation_of_value::permutation_by_number;
use ranking::unrank::unrank;
use ranking::value::value_by_number;
use runs::steps::run_steps;
use std::fmt::Result;

// A place, and the record.
pub fn on_push(mut given: Given<'_>, text: &mut Text) -> Result {
    let place = given.length();
    Permuted::from(push(given.permutation(), place)).tell(text)
}

// How many steps, and the record.
pub fn on_run_steps(mut given: Given<'_>, text: &mut Text) -> Result {
    let k = given.number();
    run_steps(given.permutation(), k).tell(text)
}

// n and the rank.
pub fn on_unrank(mut given: Given<'_>, text: &mut Text) -> Result {
    let n = given.length();
    Permuted::from(unrank(n, given.number())).tell(text)
}

// The zero, as a number, and the record.
pub fn on_value(mut given: Given<'_>, text: &mut Text) -> Result {
    let zero = given.capped(u8::MAX);
    tell_number(value_by_number(given.permutation(), zero), text)
}

// The zero, as a number, n and the value.
pub fn on_of_value(mut given: Given<'_>, text: &mut Text) -> Result {
    let zero = given.capped(u8::MAX);
    let n = given.length();
    Permuted::from(permutation_by_number(n, given.number(), zero)).tell(text)
}
