// Lent charge levels, entry by cell name: read the permutation, push, count up. Each answer, and the levels at exit, are proved equal to a
// meaning of `specs/Answers` or of the theory's `CountUp`, for every input, and what a job spends is what the sum of the levels grows by.
#![tactic(auto)]

pub mod answers; // what a job that pushes answers
pub mod count_up; // k next steps
pub mod judge; // size and tie, the highest and the lowest level, a count-up call
pub mod push_level; // one push
pub mod read; // the permutation of levels
pub mod sort; // cells sorted by level
mod sum; // the sum of levels
