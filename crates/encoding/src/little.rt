// Numbers in bytes, the low byte first.
ghost use Rattle.std.specs.Prelude.{◌+◌, ◌≤◌, length};
ghost use Rattle.sheet.specs.Bytes.{bytes_of};
ghost use Rattle.sheet.specs.Putting.{Puts};

// Puts x in k bytes at a place, and gives the place after them. They are made one by one, since k is any number, also above the eight of `to_le_bytes`. For other crates
// too: it asks for the room.
pub fn put_little(out: &mut [u8], at: usize, k: usize, x: u64) -> usize
    requires { at + k ≤ length out.old }
    ensures { Puts out.old at out.new result (bytes_of k x) }
{
    let mut left = x;
    for byte in &mut out[at..at + k] {
        *byte = (left % 256) as u8;
        left /= 256;
    }
    at + k
}
