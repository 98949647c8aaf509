// Bytes and numbers put into a buffer at a place. Each function answers the place after what it put. The whole buffer is passed beside the
// place, since `Puts` tells of both.
ghost use Rattle.std.specs.Prelude.{◌+◌, ◌≤◌, ◌<◌, [], ◌∷◌, length};
ghost use Rattle.layout.specs.Text as meaning;
ghost use Rattle.sheet.specs.Putting.{Puts};

pub fn put_byte(text: &mut [u8], at: usize, byte: u8) -> usize
    requires { at < length text.old }
    ensures { Puts text.old at text.new result (byte ∷ []) }
{
    text[at] = byte;
    at + 1
}

// A space and the number in decimal.
pub fn put_field(text: &mut [u8], at: usize, x: u64) -> usize
    requires { at + length (meaning.field x) ≤ length text.old }
    ensures { Puts text.old at text.new result (meaning.field x) }
{
    let from = put_byte(text, at, b' ');
    let mut digits = [0u8; 20];
    let count = io::decimal(x, &mut digits);
    text[from..from + count].copy_from_slice(&digits[..count]);
    from + count
}
