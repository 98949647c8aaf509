// A reader that gives each cell a lowest and a highest level: the permutation, and the symbol, that every choice of levels within these bands has. Each answer is
// proved equal to a meaning of `specs/Answers`, for every input, and is given exactly when every choice agrees.
// The public functions take what C lends, one argument each.
#![tactic(auto)]

mod judge; // size, fit and value of two lists, and whether cells lead in every choice
pub mod read; // the permutation of bands
pub mod read_symbol; // the symbol of bands
