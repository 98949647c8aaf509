// Demand 3 on running code: whole runs of steps, on permutations and on levels, and whole lists of count-up calls. The contracts of the three functions are
// the one claim over the run.
#![tactic(auto)]

pub mod answers; // what runs of steps answer
pub mod calls; // lists of count-up calls
pub mod level_steps; // runs of steps on levels
pub mod steps; // runs of steps on permutations
