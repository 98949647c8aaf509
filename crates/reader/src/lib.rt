// Whole bench sheets read from bytes. What was read is proved equal to a meaning of the crate `sheet`, for every input.
#![tactic(auto)]

pub mod read_sheet; // the sheet of bytes
