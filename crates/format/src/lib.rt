// The sheet's format as code has it: its limits and refusals, numbers in bytes and link maps.
#![tactic(auto)]

pub mod refusals; // refusals and their numbers
pub mod limits; // the limits of a sheet
pub mod numbers; // numbers of two, four and eight bytes
pub mod maps; // link maps
