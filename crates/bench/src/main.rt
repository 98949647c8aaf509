// A bench sheet from standard input, and its printed text to standard output. What is printed is laid out, whole, before the first byte is written.
#![tactic(auto)]

use programs::input::read_whole;
use programs::told::tell;

fn main(rt: HostRuntime) {
    let mut sheet = text::buffers::sheet_buffer();
    let mut text = text::buffers::text_buffer();
    let n = match read_whole(&mut rt.stdin(), &mut sheet) {
        Ok(n) => n,
        Err(failed) => return tell(&rt, "bench: standard input", &failed.error),
    };
    // Done for every sheet: the buffer is long enough for any text.
    let length = text::bench::bench(&sheet[..n], &mut text).unwrap_or(0);
    if let Err(error) = rt.write_all(&text[..length]) {
        tell(&rt, "bench: standard output", &error);
    }
}
