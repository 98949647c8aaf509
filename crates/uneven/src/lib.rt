// Symbols used unevenly (document 02, request 12): the prefix of a weighted symbol, a symbol stored, and one read. Each answer, and the levels at exit, are
// proved equal to a meaning of `specs/Answers`, for every input.
// The public functions take what C lends, one argument each.
#![tactic(auto)]

mod by_weight; // symbols from heavy to light
mod codebook; // the code
mod judge; // what a job is refused for by its numbers alone
mod lengths; // the best lengths
pub mod prefix_uneven; // the prefix of a symbol
pub mod read_uneven; // the symbol of levels
mod row; // the row of a symbol: its prefix, and the other names behind it
pub mod store_uneven; // a symbol
