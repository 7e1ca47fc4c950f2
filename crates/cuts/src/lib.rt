// The definitions of a network's cuts and their theory; specs/ and proofs/ are what this crate is for.
#![tactic(auto)]
