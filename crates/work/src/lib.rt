// Work through a bench sheet. The outcome is proved equal to a meaning of `specs/Answers`, for every input.
#![tactic(auto)]

mod acting; // a held sheet's commands
pub mod answers; // what the job answers
pub mod work_sheet; // the outcome of a sheet of bytes
