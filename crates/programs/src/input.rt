// Input up to its end or to a buffer's length.
ghost use Rattle.std.specs.Prelude.{◌≡◌, IfErr, IfOk, MatchResult};
ghost use Rattle.io.specs.Counts.{IsPrefixLen};

use std::io::{Error, Read};

// A read that failed, and how many bytes came before it.
#[derive(Drop)]
pub struct Failed {
    pub error: Error,
    pub length: usize,
}

// How many bytes the reader put at the buffer's start.
pub fn read_input(reader: &mut impl Read, buf: &mut [u8]) -> Result<usize, Failed>
    ensures { MatchResult result (λ n. IsPrefixLen n buf.new) (λ failed. IsPrefixLen failed.length buf.new) }
{
    let mut length: usize = 0;
    // `read_exact` and `read_to_end` would not tell how many bytes came before a failure
    while length < buf.len() {
        match reader.read(&mut buf[length..]) {
            Ok(0) => break,
            Ok(count) => length += count,
            Err(error) => return Err(Failed { error, length }),
        }
    }
    Ok(length)
}

// For a caller that takes no bytes of a failed read.
pub fn read_whole(reader: &mut impl Read, buf: &mut [u8]) -> Result<usize, Failed>
    ensures counts { IfOk result (λ n. IsPrefixLen n buf.new) }
    ensures failed_is_none { IfErr result (λ failed. failed.length ≡ 0) }
{
    match read_input(reader, buf) {
        Ok(length) => Ok(length),
        Err(failed) => Err(Failed {
            error: failed.error,
            length: 0,
        }),
    }
}

// A failed read counts as the end.
pub fn read_full(reader: &mut impl Read, buf: &mut [u8]) -> usize
    ensures { IsPrefixLen result buf.new }
{
    match read_input(reader, buf) {
        Ok(length) => length,
        Err(failed) => failed.length,
    }
}
