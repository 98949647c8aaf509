// Lines of the printed text, laid out in a lent buffer. What was put is proved equal to a meaning of `specs/Text`.
#![tactic(auto)]

mod fields; // bytes and numbers in a buffer
pub mod lines; // the lines of commands and groups
