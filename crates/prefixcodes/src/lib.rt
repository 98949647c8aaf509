// Prefix-free codes of weighted symbols (document 02, request 12): the meanings are in specs/ and what is proved of them in proofs/. This crate has no code.

#![tactic(auto)]
