// A sheet without fault, read and written again: a line w with the number, the length, and 1 where what is written is what was read.
use reader::read_sheet::read_sheet;
use std::io::Result;
use writer::answers::Written;
use writer::write_sheet::write_sheet;

// One byte more than the longest sheet has, so that each has bytes past it.
const ROOM: usize = 24693;

// What each lent byte holds before a sheet is written.
const UNWRITTEN: u8 = 9;

// Whether the bytes written are those read, and the bytes past them kept their values.
fn holds(out: &[u8], length: usize, sheet: &[u8]) -> bool {
    out.split_at_checked(length).is_some_and(|(written, past)| {
        written == sheet && past.iter().all(|byte| *byte == UNWRITTEN)
    })
}

// A faulty sheet has no line.
pub fn print_again(rt: &impl Print, sheet: &[u8]) -> Result<()> {
    let Ok(held) = read_sheet(sheet) else {
        return Ok(());
    };
    let mut out = [UNWRITTEN; ROOM];
    let written = Written::from(write_sheet(held, &mut out));
    let same = u8::from(holds(&out, written.length, sheet));
    println!(rt; "w {} {} {same}", written.number, written.length)
}
