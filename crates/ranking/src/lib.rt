// Ranks of permutations: digits, rank and unrank; and values, which are ranks counted from a zero. Each answer is proved equal to a meaning of `specs/Answers`, for
// every input.
#![tactic(auto)]

pub mod answers; // what the jobs give, as C gets it
pub mod digits; // the b-factoradic digits
pub mod factorials; // the table of factorials, and their quotients
pub mod permutation_of_value; // the permutation of a value
pub mod rank; // the rank
pub mod unrank; // the permutation of a rank
pub mod value; // the value
mod weights; // the table of weights
pub mod zero; // the zero that a group counts from, and its rank
