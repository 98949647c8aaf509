// The permutations within reach: what the job answers, and the lent list as it left it, or a checksum of that.
use super::answers::tell_number;
use super::numbers::Numbers;
use super::text::Text;
use reach::within_reach::within_reach;
use std::fmt::{Error, Result, Write};

// The longest list that is lent.
const LONGEST: usize = 65536;

// From 0 on, for each byte in sequence: 31 times what there was, and the byte, modulo 1,000,003.
fn checksum(list: &[u8]) -> u64 {
    let mut sum = 0;
    for byte in list {
        sum = (sum * 31 + u64::from(*byte)) % 1000003;
    }
    sum
}

// r, how many bytes are lent, each 99 at first, and the levels; and what tells of the list.
fn listed<F: FnOnce(&[u8], &mut Text) -> Result>(
    numbers: &Numbers,
    text: &mut Text,
    told: F,
) -> Result
    requires { F.IsAlwaysCallable told }
{
    let mut given = numbers.given();
    let r = given.length();
    let mut list = [99u8; LONGEST];
    let list = list.get_mut(..given.length()).ok_or(Error)?;
    numbers.on_levels(2, |levels| tell_number(within_reach(levels, r, list), text))?;
    told(list, text)
}

pub fn on_reach(numbers: &Numbers, text: &mut Text) -> Result {
    listed(numbers, text, |list, text| text.lent(list))
}

pub fn on_reach_sum(numbers: &Numbers, text: &mut Text) -> Result {
    listed(numbers, text, |list, text| {
        write!(text, " {}", checksum(list))
    })
}
