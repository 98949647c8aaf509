// Permutations of a group's cells: push and successor. Each answer is proved equal to a meaning of `specs/Answers`, for every input.
// A cast by `as` is proved to lose nothing, here and in the crates above: a `TryFrom` would bring a refusal that cannot occur, and a `usize` has no `From` into a `u64`.
#![tactic(auto)]

pub mod answers; // the record and the answers
pub mod insert; // a cell put in among others
pub mod push; // push to the top
pub mod reasons; // why a job is refused
pub mod successor; // the place that the next step pushes, and what decided it
pub mod validity; // is a record a permutation, and each cell's spot
