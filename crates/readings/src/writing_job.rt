// Writing a held sheet: what the job answers, and the lent bytes as it left them.
use super::answers::tell_number;
use super::numbers::Given;
use super::text::Text;
use std::fmt::{Error, Result};
use writer::write_sheet::write_sheet;

// How many bytes can be lent.
const ROOM: usize = 64;

// How many bytes are lent, each 9 at first; then the held sheet.
pub fn on_write(mut given: Given<'_>, text: &mut Text) -> Result {
    let mut out = [9u8; ROOM];
    let out = out.get_mut(..given.length()).ok_or(Error)?;
    tell_number(write_sheet(given.sheet(), out), text)?;
    text.lent(out)
}
