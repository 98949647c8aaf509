// What failed and why, told on standard error.
use std::io::{Error, Write};

// Longer than what the system says of any error.
const ROOM: usize = 256;

// The system's words, without its number, which Rattle puts behind them.
fn words(said: &str) -> &str {
    said.split_once(" (os error ")
        .map_or(said, |(words, _)| words)
}

// There is nowhere to tell that this failed.
pub fn tell(rt: &impl Eprint, what: &str, error: &Error) {
    let mut text = [0u8; ROOM];
    let mut left: &mut [u8] = &mut text;
    let _ = write!(left, "{error}");
    let length = ROOM.saturating_sub(left.len());
    let _ = match str::from_utf8(&text[..length]) {
        Ok(said) => {
            let reason = words(said);
            eprintln!(rt; "{what}: {reason}")
        }
        Err(_) => eprintln!(rt; "{what}: {error}"),
    };
}
