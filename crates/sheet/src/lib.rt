// The bench sheet: held in memory by value; one group, one command and the zeros read from bytes. What was read is proved equal to a meaning of `specs/`, for every input.
// A reader takes all bytes and a place in them, and not the rest of the bytes: the meanings count places from the sheet's start. A count of groups or of cells is a plain
// number: a type for its range would ask more of callers.
#![tactic(auto)]

pub mod commands; // one command
pub mod groups; // one group
pub mod held; // the sheet in memory
pub mod little; // numbers in bytes
pub mod zeros; // the third section: the groups on the new zero
