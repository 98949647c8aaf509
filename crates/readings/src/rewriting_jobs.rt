// Rewriting, all symbols of a code, and the prefix of one.
use super::answers::{Answer, tell_number};
use super::level_jobs::left;
use super::numbers::{Given, Numbers};
use super::text::Text;
use rewriting::rewrite::rewrite;
use std::fmt::{Error, Result};
use symbols::answers::Prefixed;
use symbols::prefix::prefix;
use symbols::read_symbol::read_symbol;
use symbols::store::store;

// How many bytes can be lent for the names of pushes.
const ROOM: usize = 64;

// How many levels there can be.
const LEVELS: usize = 41;

// How many bytes are lent for the names of the pushes, each 9 at first; how many levels; the levels; then the target's record.
pub fn on_rewrite(mut given: Given<'_>, text: &mut Text) -> Result {
    let mut names = [9u8; ROOM];
    let mut levels = [0u16; LEVELS];
    let names = names.get_mut(..given.length()).ok_or(Error)?;
    let levels = levels.get_mut(..given.length()).ok_or(Error)?;
    for level in levels.iter_mut() {
        *level = given.capped(u16::MAX);
    }
    let answer = rewrite(levels, given.permutation(), names);
    left(answer, levels, text)?;
    text.lent(names)
}

// Symbol s is stored, and then read.
fn stored_and_read(m: u64, s: u64, levels: &mut [u16], text: &mut Text) -> Result {
    left(store(levels, m, s), levels, text)?;
    tell_number(read_symbol(levels, m), text)
}

// The line has m, and then levels: each of m symbols is stored on these levels anew.
pub fn on_symbols(numbers: &Numbers, text: &mut Text) -> Result {
    let m = numbers.given().number();
    for s in 0..m {
        numbers.on_levels(1, |levels| stored_and_read(m, s, levels, text))?;
    }
    Ok(())
}

// A symbol, how many there are, and n.
pub fn on_prefix(mut given: Given<'_>, text: &mut Text) -> Result {
    let symbol = given.number();
    let m = given.number();
    Prefixed::from(prefix(given.length(), m, symbol)).tell(text)
}
