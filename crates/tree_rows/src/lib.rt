// Rows of pairs: the weights of all pairs of a tree's links, each in a few steps. The nodes have places, so that those below a link have
// the places from its own up to its stop. The row of a place u is made from the row of u + 1, and gives the weight of the link at u with
// every link behind it.
// The sums are written as ones that may wrap, since the arrays alone do not say how large they are; of every network with at most 2,048
// links of weights below 2^32 they stay below 2^45, and none wraps.
// Links, index and places are given one by one, and not as a listed sheet: rows are of any network, and this crate knows of no sheet.
#![tactic(auto)]

ghost use Rattle.std.specs.Prelude.{◌≡◌, ℕ, suc, ◌<◌, ◌≤◌, List, MatchOption};
ghost use Rattle.cuts.specs.Network.{Network, Tree};
ghost use Rattle.cuts.specs.Candidate.{weight_of};
ghost use Rattle.cuts.specs.Limits.{most_nodes};
ghost use Rattle.arrays.specs.Lists.{entry};
ghost use Rattle.arrays.specs.Kept.{Kept};
ghost use Rattle.search_order.specs.Visits.{handle_at};
ghost use Rattle.tree_rows.specs.Rows.{Added, RowTallied, Tallied};
ghost use Rattle.tree_rows.specs.Making.{LinksAddable, RunAddable, RowStartable, RowTallyable, RowSummable, RowMakeable};
ghost use Rattle.tree_rows.specs.Making.{TreeHeld, RowStart, RowsHeld, BesideDegrees, SumsMade};
ghost use Rattle.tree_rows.specs.Reading.{RowHeld, Behind, RowFrom, Heavy, NextLight};

use arrays::{Index, Links};
use by_node::far_end;
use format::limits::MOST_NODES;
use tree_places::Places;

// The figures of a row, by place. The sums come first: where sums and tallies are 2,048 bytes apart, processors take the next tally for the
// sum just stored, and wait.
#[derive(Drop)]
pub struct Figures {
    // What crosses the places below the row's link, at all places in front; the last for the place behind the last.
    pub sums: [u64; MOST_NODES + 1],
    // The weight of the links at each place.
    pub degrees: [u64; MOST_NODES],
    // The weight of each link alone, from the row's place on.
    pub singles: [u64; MOST_NODES],
    // The weight of the links between each place and those below the row's link.
    pub tallies: [u64; MOST_NODES],
}

// Figures of which none is made yet.
pub const NO_FIGURES: Figures = Figures {
    sums: [0; MOST_NODES + 1],
    degrees: [0; MOST_NODES],
    singles: [0; MOST_NODES],
    tallies: [0; MOST_NODES],
};

// Adds to the tally of each place the weight of the links between it and node `x`.
fn add_links(tallies: &mut [u64; MOST_NODES], links: &Links, index: &Index, p: &Places, x: u8)
    requires { LinksAddable links.now index.now x }
    ensures { (net : Network) (t : Tree) (by_place : List ℕ) (nodes : ℕ)
        → TreeHeld net t links.now index.now p.now by_place nodes → x < nodes
        → Added net p.now.place (entry p.now.place x) tallies.old tallies.new }
{
    let from = index.starts[x as usize] as usize;
    let to = index.starts[x as usize + 1] as usize;
    for &k in &index.runs[from..to] {
        let k = k as usize;
        let y = p.place[far_end(links.firsts[k], links.seconds[k], x) as usize] as usize;
        tallies[y] = tallies[y].wrapping_add(links.weights[k] as u64);
    }
}

// Adds the links of the nodes at the places from `from` up to `to`.
fn add_run(
    tallies: &mut [u64; MOST_NODES],
    links: &Links,
    index: &Index,
    p: &Places,
    from: usize,
    to: usize,
)
    requires { RunAddable links.now index.now p.now to }
    ensures { (net : Network) (t : Tree) (by_place : List ℕ) (nodes first : ℕ)
        → TreeHeld net t links.now index.now p.now by_place nodes
        → first ≤ from → from ≤ to → to ≤ nodes
        → Tallied net p.now.place first from tallies.old
        → Tallied net p.now.place first to tallies.new }
{
    for at in from..to {
        add_links(tallies, links, index, p, p.node[at]);
    }
}

// Where the tallies of `u` start from: those of the places behind u up to the answer, which is no later than u's stop. They are those of
// the row before if u + 1 is below u, else none.
fn start_row(
    tallies: &mut [u64; MOST_NODES],
    nodes: usize,
    stops: &[u16; MOST_NODES],
    u: usize,
) -> usize
    requires { RowStartable nodes stops.now u }
    ensures { (net : Network) (t : Tree) (place node links : List ℕ)
        → Kept net t place node stops.now links → net.nodes ≡ nodes → 0 < u → u < nodes
        → RowTallied net place stops.now (suc u) tallies.old
        → RowStart net place stops.now u result tallies.new }
{
    if u + 1 < stops[u] as usize {
        stops[u + 1] as usize
    } else {
        tallies[..nodes].fill(0);
        u + 1
    }
}

// The tallies of the places below the link at `u`, from those of the places below the link at u + 1.
fn tally_row(
    tallies: &mut [u64; MOST_NODES],
    nodes: usize,
    links: &Links,
    index: &Index,
    p: &Places,
    u: usize,
)
    requires { RowTallyable links.now index.now p.now nodes u }
    ensures { (net : Network) (t : Tree) (by_place : List ℕ)
        → TreeHeld net t links.now index.now p.now by_place nodes
        → 0 < u → RowTallied net p.now.place p.now.stops (suc u) tallies.old
        → RowTallied net p.now.place p.now.stops u tallies.new }
{
    let stop = p.stops[u] as usize;
    let from = start_row(tallies, nodes, &p.stops, u);
    add_run(tallies, links, index, p, from, stop);
    add_links(tallies, links, index, p, p.node[u]);
}

// Makes the sums of what crosses the places from `u` up to `stop`, from u on.
fn sum_row(
    sums: &mut [u64; MOST_NODES + 1],
    degrees: &[u64; MOST_NODES],
    tallies: &[u64; MOST_NODES],
    nodes: usize,
    stop: usize,
    u: usize,
)
    requires { RowSummable nodes stop u }
    ensures { SumsMade degrees.now tallies.now nodes stop u sums.new }
{
    sums[u] = 0;
    let mut sum = 0u64;
    for y in u..stop {
        sum = sum.wrapping_add(degrees[y].wrapping_sub(tallies[y]));
        sums[y + 1] = sum;
    }
    for y in stop..nodes {
        sum = sum.wrapping_add(tallies[y]);
        sums[y + 1] = sum;
    }
}

impl Figures {
    // Gives each place the degree of its node.
    pub fn weigh_places(
        &mut self,
        nodes: usize,
        node: &[u8; MOST_NODES],
        degrees: &[u64; MOST_NODES],
    )
        requires { nodes ≤ most_nodes }
        ensures by_index { (p : ℕ) → p < nodes
            → entry self.new.degrees p ≡ entry degrees.now (entry node.now p) }
        ensures beside_degrees { BesideDegrees self.old self.new }
    {
        for p in 0..nodes {
            self.degrees[p] = degrees[node[p] as usize];
        }
    }

    // Makes the row of `u` from the row of u + 1.
    pub fn make_row(&mut self, nodes: usize, links: &Links, index: &Index, p: &Places, u: usize)
        requires { RowMakeable links.now index.now p.now nodes u }
        ensures { (net : Network) (t : Tree) (by_place : List ℕ)
            → RowsHeld net t links.now index.now p.now by_place nodes (suc u) self.old
            → RowsHeld net t links.now index.now p.now by_place nodes u self.new }
    {
        let stop = p.stops[u] as usize;
        tally_row(&mut self.tallies, nodes, links, index, p, u);
        sum_row(&mut self.sums, &self.degrees, &self.tallies, nodes, stop, u);
        self.singles[u] = self.sums[stop];
    }

    // The weight of the links at the places `u` and `v`, behind it, as a pair, from the row of u: both alone, less twice what they share,
    // which is what crosses the places below u at those below v. Of the places only the stops are read.
    pub fn pair_weight(&self, stops: &[u16; MOST_NODES], u: usize, v: usize) -> u64
        requires { Behind stops.now u v }
        ensures { (net : Network) (t : Tree) (place node links : List ℕ)
            → RowHeld net t place node stops.now links u self.now → v < net.nodes
            → result ≡ weight_of net t (handle_at links u v) }
    {
        let shared = self.sums[stops[v] as usize].wrapping_sub(self.sums[v]);
        let both = self.singles[u].wrapping_add(self.singles[v]);
        both.wrapping_sub(shared.wrapping_add(shared))
    }

    // The first place from `from` on whose link, with that at `u`, weighs no more than `limit`, `None` where there is none.
    pub fn next_light(
        &self,
        nodes: usize,
        stops: &[u16; MOST_NODES],
        u: usize,
        from: usize,
        limit: u64,
    ) -> Option<usize>
        requires { RowFrom stops.now nodes u from }
        ensures { MatchOption result (Heavy self.now nodes stops.now u from limit nodes) (NextLight self.now nodes stops.now u from limit) }
    {
        for v in from..nodes {
            if self.pair_weight(stops, u, v) <= limit {
                return Some(v);
            }
        }
        None
    }
}
