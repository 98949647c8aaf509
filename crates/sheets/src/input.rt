// A file's bytes, up to its end or to a buffer's length.
ghost use Rattle.std.specs.Prelude.{IfOk};
ghost use Rattle.io.specs.Counts.{IsPrefixLen};

use programs::input::read_full;
use std::fs::File;
use std::io::Result;
use std::rt::Files;

// It fails where the file cannot be opened. A failed read counts as the end.
pub fn read_file(rt: &impl Files, name: &str, buf: &mut [u8]) -> Result<usize>
    ensures { IfOk result (λ n. IsPrefixLen n buf.new) }
{
    let mut file = File::open(rt, name)?;
    Ok(read_full(&mut file, buf))
}
