// The jobs on levels: what each answers, and the lent lists as it left them.
use super::answers::{Answer, tell_number};
use super::numbers::Numbers;
use super::text::Text;
use charge::answers::{Pushes, Spent};
use charge::count_up::count_up;
use charge::push_level::push_level;
use charge::read::read;
use permutation::answers::Permuted;
use permutation::reasons::Refusal;
use runs::calls::run_calls;
use runs::level_steps::run_levels;
use std::fmt::{Error, Result};
use symbols::read_symbol::read_symbol;
use symbols::store::store;

// How many bytes can be lent for the numbers of calls.
const ROOM: usize = 64;

// How many calls there can be.
const CALLS: usize = 62;

// What was pushed, and the levels left.
pub fn left(
    answer: std::result::Result<Spent, Refusal>,
    levels: &[u16],
    text: &mut Text,
) -> Result {
    Pushes::from(answer).tell(text)?;
    text.lent(levels)
}

pub fn on_read(numbers: &Numbers, text: &mut Text) -> Result {
    numbers.on_levels(0, |levels| Permuted::from(read(levels)).tell(text))
}

// A place, and levels.
pub fn on_push_level(numbers: &Numbers, text: &mut Text) -> Result {
    let place = numbers.given().length();
    numbers.on_levels(1, |levels| left(push_level(levels, place), levels, text))
}

// k, and levels.
pub fn on_count_up(numbers: &Numbers, text: &mut Text) -> Result {
    let k = numbers.given().capped(u32::MAX);
    numbers.on_levels(1, |levels| left(count_up(levels, k), levels, text))
}

// A symbol, how many there are, and levels.
pub fn on_store(numbers: &Numbers, text: &mut Text) -> Result {
    let mut given = numbers.given();
    let symbol = given.number();
    let m = given.number();
    numbers.on_levels(2, |levels| left(store(levels, m, symbol), levels, text))
}

// How many symbols there are, and levels.
pub fn on_read_symbol(numbers: &Numbers, text: &mut Text) -> Result {
    let m = numbers.given().number();
    numbers.on_levels(1, |levels| tell_number(read_symbol(levels, m), text))
}

// How many steps, and levels.
pub fn on_run_levels(numbers: &Numbers, text: &mut Text) -> Result {
    let k = numbers.given().capped(u32::MAX);
    numbers.on_levels(1, |levels| {
        run_levels(levels, k).tell(text)?;
        text.lent(levels)
    })
}

// How many bytes are lent for the calls' numbers, each 9 at first; how many calls; their counts; then levels.
pub fn on_run_calls(numbers: &Numbers, text: &mut Text) -> Result {
    let mut given = numbers.given();
    let mut bytes = [9u8; ROOM];
    let mut counts = [0u32; CALLS];
    let bytes = bytes.get_mut(..given.length()).ok_or(Error)?;
    let counts = counts.get_mut(..given.length()).ok_or(Error)?;
    for count in counts.iter_mut() {
        *count = given.capped(u32::MAX);
    }
    numbers.on_levels(2 + counts.len(), |levels| {
        left(run_calls(levels, counts, bytes), levels, text)?;
        text.lent(bytes)
    })
}
