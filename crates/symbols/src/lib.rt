// Store a symbol, read one. Each answer, and the levels at exit, are proved equal to a meaning of `specs/Answers`, for every input.
// The public functions take what C lends, one argument each.
#![tactic(auto)]

pub mod answers; // what reading a symbol and the prefix of a symbol answer
pub mod code; // what a code is judged by
pub mod number; // the number of the prefix that leads a permutation
pub mod prefix; // the prefix of a symbol
mod prefix_length; // the length of the prefixes of a code
pub mod read_symbol; // the symbol of a permutation, and of levels
pub mod row; // the row of a symbol: its prefix, and the other names behind it
pub mod store; // a symbol
