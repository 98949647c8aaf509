// The permutations within reach of r pushes, listed. The answer and the lent list at exit are proved equal to a meaning of `specs/Answers`, for every input, and
// what is listed is proved to be what the rows of at most r pushes lead to.
#![tactic(auto)]

pub mod answers; // how many there are
mod list; // permutations in a lent list, one after another
pub mod within_reach; // the job
