// Networks, trees and sides as arrays hold them: what was read of a sheet, and the theory between the definitions and the code.
#![tactic(auto)]

pub mod listed_sheets; // a sheet that was read, with its links by node
pub mod sheets; // a sheet that was read

use format::limits::{MOST_LINKS, MOST_NODES};

// How many numbers say where each node's links begin: the last says where those of the last node end.
pub const STARTS: usize = MOST_NODES + 1;

// Each link stands among those of both its ends.
pub const RUNS: usize = 2 * MOST_LINKS;

// How many nodes, links and trees a sheet has, and the position of its first tree record.
#[derive(Clone, Copy)]
pub struct Layout {
    pub nodes: usize,
    pub links: usize,
    pub trees: usize,
    pub records: usize,
}

// The links of a network, by number: the first and the second end of each, and its weight. Three arrays and no array of structs, which would take
// 16,384 bytes in place of 12,288.
#[derive(Drop)]
pub struct Links {
    pub firsts: [u8; MOST_LINKS],
    pub seconds: [u8; MOST_LINKS],
    pub weights: [u32; MOST_LINKS],
}

// Links of which none is read yet.
pub const NO_LINKS: Links = Links {
    firsts: [0; MOST_LINKS],
    seconds: [0; MOST_LINKS],
    weights: [0; MOST_LINKS],
};

// The links of a network by node: those of node x are the ones in `runs` from starts[x] up to, not including, starts[x + 1]; and the weight of
// each node's links.
#[derive(Drop)]
pub struct Index {
    pub starts: [u16; STARTS],
    pub runs: [u16; RUNS],
    pub degrees: [u64; MOST_NODES],
}

// An index of which nothing is made yet.
pub const NO_INDEX: Index = Index {
    starts: [0; STARTS],
    runs: [0; RUNS],
    degrees: [0; MOST_NODES],
};
