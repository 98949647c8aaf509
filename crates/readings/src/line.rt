// A line of the input: its first word names the job, and the numbers after it are the job's input.
use super::answers::{Answer, tell_number};
use super::arrangement_jobs::on_rearrange;
use super::band_jobs::{on_read_bands, on_read_symbol_bands};
use super::job::Job;
use super::level_jobs::{
    on_count_up, on_push_level, on_read, on_read_symbol, on_run_calls, on_run_levels, on_store,
};
use super::numbers::Numbers;
use super::permutation_jobs::{on_of_value, on_push, on_run_steps, on_unrank, on_value};
use super::reach_jobs::{on_reach, on_reach_sum};
use super::rewriting_jobs::{on_prefix, on_rewrite, on_symbols};
use super::text::Text;
use super::uneven_jobs::{on_prefix_uneven, on_read_uneven, on_store_uneven};
use super::walk::on_walk;
use super::writing_job::on_write;
use permutation::answers::Placed;
use permutation::successor::successor;
use ranking::answers::Digits;
use ranking::digits::digits;
use ranking::rank::rank;
use std::{fmt, io};

// What the job gives, one arm a job, since each has an input of its own form. The reply ends with an error where the text is full, or where the line lacks what the job is given.
fn reply(job: Job, numbers: &Numbers, line: &[u8], text: &mut Text) -> fmt::Result {
    let mut given = numbers.given();
    match job {
        Job::Rank => tell_number(rank(given.permutation()), text),
        Job::Digits => Digits::from(digits(given.permutation())).tell(text),
        Job::Successor => Placed::from(successor(given.permutation())).tell(text),
        Job::Push => on_push(given, text),
        Job::RunSteps => on_run_steps(given, text),
        Job::Unrank => on_unrank(given, text),
        Job::Walk => on_walk(given, text),
        Job::ValueOn => on_value(given, text),
        Job::OfValue => on_of_value(given, text),
        Job::Read => on_read(numbers, text),
        Job::PushLevel => on_push_level(numbers, text),
        Job::CountUp => on_count_up(numbers, text),
        Job::Store => on_store(numbers, text),
        Job::ReadSymbol => on_read_symbol(numbers, text),
        Job::RunLevels => on_run_levels(numbers, text),
        Job::RunCalls => on_run_calls(numbers, text),
        Job::Rewrite => on_rewrite(given, text),
        Job::Symbols => on_symbols(numbers, text),
        Job::Prefix => on_prefix(given, text),
        Job::Write => on_write(given, text),
        Job::ReadBands => on_read_bands(numbers, text),
        Job::ReadSymbolBands => on_read_symbol_bands(numbers, text),
        Job::Reach => on_reach(numbers, text),
        Job::ReachSum => on_reach_sum(numbers, text),
        Job::Rearrange => on_rearrange(numbers, line, text),
        Job::PrefixUneven => on_prefix_uneven(numbers, text),
        Job::StoreUneven => on_store_uneven(numbers, text),
        Job::ReadUneven => on_read_uneven(numbers, text),
    }
}

// Writes the line, in which the reply takes the newline's place. A line without a job stays as it is.
pub fn answer(rt: &impl Print, text: &mut Text, line: &[u8]) -> io::Result<()> {
    text.clear();
    text.push(line);
    if let Some(job) = Job::named_by(line) {
        text.pop();
        let _ = reply(job, &Numbers::of(line), line, text);
        text.push(b"\n");
    }
    rt.write_all(text.as_bytes())
}
