// The list of all lightest sides that trees show: its definition and its theory; specs/ and proofs/ are what this crate is for.
#![tactic(auto)]
