// A held sheet as bytes: what is written of it, and that writing and reading undo each other, in `specs/`; one group, one command and the zeros put into bytes here. The
// functions are for `writer`, and ask for room: that of the longest part that may stand at the place. They take the whole buffer and a place in it, and not the rest of the
// buffer: what they say (`Puts`) is also of what stands before the place.
#![tactic(auto)]

pub mod commands; // one command
pub mod groups; // one group
pub mod little; // numbers in bytes
pub mod zeros; // the groups on the new zero
