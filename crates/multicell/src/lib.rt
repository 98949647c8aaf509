// Document 02, request 11: arrangements with several cells to a level, and one changed into another. The answer and the lent list at exit are proved equal to a
// meaning of `specs/Answers`, for every input, and what is left in the list is proved to be a raise that costs the least.
// The public functions take what C lends, one argument each.
#![tactic(auto)]

pub mod answers; // the cost
mod arranged; // is a list an arrangement?
mod cost; // the largest difference
pub mod rearrange; // the job
