// One arrangement changed into another: what the job answers, and the lent list as it left it.
ghost use Rattle.std.specs.Prelude.{◌≤◌, length};

use super::answers::tell_number;
use super::numbers::Numbers;
use super::text::Text;
use multicell::rearrange::rearrange;
use std::fmt::{Error, Result};

// The most cells of a list that is lent.
const MOST: usize = 128;

// The levels of a word, from the row's start. A level is a letter: A is 1, and @ is 0. A byte below that is no level.
fn levels_in<'a>(word: &[u8], row: &'a mut [u8; MOST]) -> &'a [u8]
    ensures { length result.now ≤ 128 }
{
    let levels = word.iter().filter_map(|letter| letter.checked_sub(b'@'));
    for (cell, level) in row.iter_mut().zip(levels) {
        *cell = level;
    }
    let count = word.iter().filter(|letter| **letter >= b'@').count();
    &row[..count.min(MOST)]
}

// q, z, how many bytes are lent, each 99 at first, and the old and the new arrangement as words, a letter for each cell.
pub fn on_rearrange(numbers: &Numbers, line: &[u8], text: &mut Text) -> Result {
    let mut given = numbers.given();
    let q = given.length();
    let z = given.length();
    let mut list = [99u8; MOST];
    let list = list.get_mut(..given.length()).ok_or(Error)?;
    let mut words = line.split(|byte| *byte == b' ').skip(4);
    let (mut old, mut new) = ([0u8; MOST], [0u8; MOST]);
    let old = levels_in(words.next().unwrap_or(&[]), &mut old);
    let new = levels_in(words.next().unwrap_or(&[]), &mut new);
    tell_number(rearrange(q, z, old, new, list), text)?;
    text.lent(list)
}
