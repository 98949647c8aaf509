// Held sheets written into lent bytes. The answer, and the list at exit, are proved equal to a meaning of `specs/Answers`, for every input.
#![tactic(auto)]

pub mod answers; // what the job answers
mod page; // the whole sheet on a page
pub mod write_sheet; // the whole sheet in a lent list
