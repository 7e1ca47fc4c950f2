// The weights of all pairs of one tree's links, each written at the slot of its two ranks.
#![tactic(auto)]

ghost use Rattle.std.specs.Prelude.{◌≡◌, List, ℕ};
ghost use Rattle.cuts.specs.Network.{Network, Tree};
ghost use Rattle.arrays.specs.ByNode.{Degrees};
ghost use Rattle.tree_rows.specs.Making.{TreeHeld};
ghost use Rattle.tree_ranks.specs.Ranks.{RanksOf};
ghost use Rattle.pair_rows.specs.Writing.{slot_of_ranks, Slotted, RowWritable, RowWritten, PairsWritable, PairsLeft};

use arrays::{Index, Links};
use format::limits::MOST_NODES;
use row_starts::{ROWS, row_starts};
use tree_ranks::Ranked;
use tree_rows::{Figures, NO_FIGURES};

// The slot of the pair of the links of two different ranks, in either order; `starts` has the table of row starts.
fn pair_slot(starts: &[u16; ROWS], a: u8, b: u8) -> usize
    requires { Slotted starts.now a b }
    ensures { result ≡ slot_of_ranks a b }
{
    if a < b {
        starts[b as usize] as usize + a as usize
    } else {
        starts[a as usize] as usize + b as usize
    }
}

// Writes the weights of the pairs of row `u`: the link at place `u` with each one behind it.
fn write_row(
    area: &mut [u64],
    figures: &Figures,
    nodes: usize,
    stops: &[u16; MOST_NODES],
    rank: &[u8; MOST_NODES],
    starts: &[u16; ROWS],
    u: usize,
)
    requires { RowWritable area.old stops.now rank.now starts.now nodes u }
    ensures { RowWritten figures.now stops.now rank.now nodes u
        area.old area.new }
{
    let own = rank[u];
    for v in u + 1..nodes {
        area[pair_slot(starts, own, rank[v])] = figures.pair_weight(stops, u, v);
    }
}

// Writes the weights of all pairs of a tree to the front of the area, each at its slot. `index` has the links by node. Links and index are given
// one by one, and not as a listed sheet: the pairs are of any network, as in `mark_ties`.
// Cost: as that of `search_tree`.
pub fn write_pairs(area: &mut [u64], nodes: usize, links: &Links, index: &Index, r: &Ranked)
    requires { PairsWritable area.old links.now index.now nodes r.now }
    ensures { (net : Network) (t : Tree) (by_place : List ℕ)
        → TreeHeld net t links.now index.now r.now.places by_place nodes → RanksOf net t by_place r.now.at r.now.rank
        → Degrees net index.now.degrees
        → PairsLeft net t area.old area.new }
{
    let p = &r.places;
    let starts = row_starts();
    let mut figures = NO_FIGURES;
    figures.weigh_places(nodes, &p.node, &index.degrees);
    for u in (1..nodes).rev() {
        figures.make_row(nodes, links, index, p, u);
        write_row(area, &figures, nodes, &p.stops, &r.rank, &starts, u);
    }
}
