// Rewrite levels to a target permutation. The answer, and every lent list at exit, are proved equal to a meaning of `specs/Answers`, for every input.
#![tactic(auto)]

pub mod raise; // a row's first cells pushed
pub mod rewrite; // to a target permutation
