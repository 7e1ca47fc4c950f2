// The entries that firmware calls, a module for each. Each returns a number, as the C interface has it.
#![tactic(auto)]

pub mod cable; // wcut_thickness
pub mod corner_table; // wcut_corners
pub mod list; // wcut_list
pub mod pair_sheet; // wcut_pairs
pub mod report; // wcut_report
