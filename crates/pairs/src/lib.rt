// The pair sheet, the weights of all pairs of one tree's links: its definition and its theory; specs/ and proofs/ are what this crate is for.
#![tactic(auto)]
