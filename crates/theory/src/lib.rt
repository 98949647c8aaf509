// The meanings of document 01 are in specs/ and what is proved of them in proofs/. This crate has no code.
#![tactic(auto)]
