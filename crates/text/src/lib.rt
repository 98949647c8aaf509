// The text that is printed of a bench sheet. The answer, and the buffer at exit, are proved equal to a meaning of `specs/Answers`, for every input.
#![tactic(auto)]

pub mod answers; // what the job answers
pub mod bench; // the whole text in a lent buffer
pub mod buffers; // for a whole sheet and a whole text
