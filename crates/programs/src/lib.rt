// What the programs share.
#![tactic(auto)]

pub mod input; // input, read whole
pub mod told; // what failed
