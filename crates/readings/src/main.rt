// The bench readings of document 01 and the examples of documents 02, 001 and 000, executed. Each line of standard input names a job and its input; the
// program writes the line and what the job gives. It reads 131,072 bytes at most. The file `stdout` holds what the documents say, and `expected.py` how it was found.
#![tactic(auto)]

mod answers; // what the jobs answer, told
mod arrangement_jobs; // one arrangement changed into another
mod band_jobs; // the jobs on bands
mod held_sheet; // a held sheet from the numbers of a line
mod job; // which job a line names
mod level_jobs; // the jobs on levels alone
mod line; // a line and its reply
mod numbers; // the numbers of a line
mod permutation_jobs; // the jobs on permutations
mod reach_jobs; // the permutations within reach
mod rewriting_jobs; // rewriting, all symbols of a code, the prefix of one
mod text; // text in fixed memory
mod uneven_jobs; // symbols by weights
mod walk; // a long walk along the cycle
mod writing_job; // a held sheet written

use programs::input::read_full;
use std::io::Result;

// How many bytes are read.
const SOURCE: usize = 131072;

fn main(rt: HostRuntime) -> Result<()> {
    let mut source = [0u8; SOURCE];
    let mut text = text::Text::new();
    let n = read_full(&mut rt.stdin(), &mut source);
    for line in source[..n].split_inclusive(|byte| *byte == b'\n') {
        line::answer(&rt, &mut text, line)?;
    }
    Ok(())
}
