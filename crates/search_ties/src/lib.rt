// Marks the candidates of one tree that weigh no more than a limit, all of them, in a table of bits, by the ranks of their links.
// Links and index are given one by one, and not as a listed sheet: what is marked is of any network, as docs/TRUST.md says.
#![tactic(auto)]

ghost use Rattle.std.specs.Prelude.{◌≡◌, List, ℕ, ◌+◌, leb};
ghost use Rattle.cuts.specs.Network.{Network, Tree};
ghost use Rattle.cuts.specs.Candidate.{weight_of};
ghost use Rattle.arrays.specs.ByNode.{Degrees};
ghost use Rattle.tree_rows.specs.Making.{TreeHeld};
ghost use Rattle.tree_rows.specs.Reading.{RowHeld, RowAt};
ghost use Rattle.tree_ranks.specs.Ranks.{RanksOf};
ghost use Rattle.bit_table.specs.Cells.{Tabled};
ghost use Rattle.search_ties.specs.Ties.{IsCellOf, InRows, LightMarked, Markable};

use arrays::{Index, Links};
use bit_table::set_bit;
use format::limits::MOST_NODES;
use tree_ranks::{Ranked, TABLE};
use tree_rows::{Figures, NO_FIGURES};

// The cell of the links of two ranks, which is that of one link where they are equal.
fn cell(a: u8, b: u8) -> usize
    ensures { IsCellOf a b result }
{
    if a < b {
        MOST_NODES * a as usize + b as usize
    } else {
        MOST_NODES * b as usize + a as usize
    }
}

// Marks the candidates of row `u` that weigh no more than the limit: the link at place `u` alone, and with each one behind it.
fn mark_row(
    table: &mut [u64; TABLE],
    figures: &Figures,
    nodes: usize,
    stops: &[u16; MOST_NODES],
    rank: &[u8; MOST_NODES],
    u: usize,
    limit: u64,
)
    requires { RowAt stops.now nodes u }
    ensures { (net : Network) (t : Tree) (place node links : List ℕ)
        → RowHeld net t place node stops.now links u figures.now
        → net.nodes ≡ nodes
        → LightMarked net t links rank.now (InRows nodes (u + 1) nodes) limit table.old
        → LightMarked net t links rank.now (InRows nodes u nodes) limit table.new }
{
    let own = rank[u];
    if figures.singles[u] <= limit {
        set_bit(table, cell(own, own));
    }
    // Where the loop keeps a number to go on from in place of the next column, each pair takes one instruction more.
    let mut next = figures.next_light(nodes, stops, u, u + 1, limit);
    while let Some(v) = next {
        set_bit(table, cell(own, rank[v]));
        next = figures.next_light(nodes, stops, u, v + 1, limit);
    }
}

// Marks in the table, which has no bit set, exactly those candidates of a tree that weigh no more than the limit. `index` has the links by node.
// Cost: as that of `search_tree`. The loop over the rows stands in both, and in `write_pairs`: as one function it would take what is done with a
// row as a closure, with a clause on what each closure changes, and be longer than the three.
pub fn mark_ties(
    table: &mut [u64; TABLE],
    nodes: usize,
    links: &Links,
    index: &Index,
    r: &Ranked,
    limit: u64,
)
    requires { Markable table.old links.now index.now r.now nodes }
    ensures { (net : Network) (t : Tree) (by_place : List ℕ)
        → TreeHeld net t links.now index.now r.now.places by_place nodes → RanksOf net t by_place r.now.at r.now.rank
        → Degrees net index.now.degrees
        → Tabled net t (λ h. leb (weight_of net t h) limit) table.new }
{
    let p = &r.places;
    let mut figures = NO_FIGURES;
    figures.weigh_places(nodes, &p.node, &index.degrees);
    for u in (1..nodes).rev() {
        figures.make_row(nodes, links, index, p, u);
        mark_row(table, &figures, nodes, &p.stops, &r.rank, u, limit);
    }
}
