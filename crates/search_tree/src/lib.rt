// Searches the candidates of one tree by rows: from the last place down, the link at each place alone, then with each one behind it.
// Links and index are given one by one, and not as a listed sheet: the search is of any network, as docs/TRUST.md says.
#![tactic(auto)]

ghost use Rattle.std.specs.Prelude.{◌≡◌, List, ℕ, ◌+◌, ◌<◌};
ghost use Rattle.cuts.specs.First.{first_from};
ghost use Rattle.cuts.specs.Network.{Network, Tree};
ghost use Rattle.cuts.specs.Candidate.{Candidate, candidate, fewer_nodes, ahead};
ghost use Rattle.arrays.specs.ByNode.{Degrees};
ghost use Rattle.tree_rows.specs.Making.{Searchable, TreeHeld};
ghost use Rattle.tree_rows.specs.Reading.{RowHeld, RowAt, ColumnAt};
ghost use Rattle.search_order.specs.Choice.{Says, Prior, tree_candidates};
ghost use Rattle.search_order.specs.Visits.{handle_at, Reached};

use arrays::{Index, Links};
use format::limits::MOST_NODES;
use search_order::{Found, comes_first, pair_of};
use tree_places::Places;
use tree_rows::{Figures, NO_FIGURES};
use tree_sides::counts::{pair_count, single_count};

// The candidate of the links at the places `u` and `v`, no earlier than it, from the row of u: of one link where they are equal.
fn candidate_at(
    figures: &Figures,
    stops: &[u16; MOST_NODES],
    links: &[u16; MOST_NODES],
    tree: u8,
    u: usize,
    v: usize,
) -> Found
    requires { ColumnAt stops.now u v }
    ensures { (net : Network) (t : Tree) (place node : List ℕ)
        → RowHeld net t place node stops.now links.now u figures.now → v < net.nodes
        → Says result (candidate net tree t (handle_at links.now u v)) }
{
    let link = links[u];
    if u == v {
        let below = single_count(stops, u);
        return pair_of(tree, link, link, figures.singles[u], below);
    }
    let weight = figures.pair_weight(stops, u, v);
    let count = pair_count(stops, u, v);
    pair_of(tree, link, links[v], weight, count)
}

// The first of what was found before and the candidates of row `u`: the link at place `u` alone, then with each one behind it that weighs no
// more than what was found.
fn search_row(
    figures: &Figures,
    nodes: usize,
    stops: &[u16; MOST_NODES],
    links: &[u16; MOST_NODES],
    tree: u8,
    u: usize,
    before: Found,
) -> Found
    requires { RowAt stops.now nodes u }
    ensures { (net : Network) (t : Tree) (c : Candidate) (place node : List ℕ)
        → RowHeld net t place node stops.now links.now u figures.now
        → net.nodes ≡ nodes
        → Reached (ahead fewer_nodes) c net tree t links.now (u + 1) nodes before
        → Reached (ahead fewer_nodes) c net tree t links.now u nodes result }
{
    let mut best = before;
    let mut next = Some(u);
    while let Some(v) = next {
        let tried = candidate_at(figures, stops, links, tree, u, v);
        if comes_first(tried, best) {
            best = tried;
        }
        next = figures.next_light(nodes, stops, u, v + 1, best.weight);
    }
    best
}

// The first of what was found before and all candidates of a tree that was placed. `index` has the links by node.
// Cost: a few steps for each pair of its links, and at most 2 log2 nodes of them for each link of the network.
pub fn search_tree(
    nodes: usize,
    links: &Links,
    index: &Index,
    p: &Places,
    tree: u8,
    before: Found,
) -> Found
    requires { Searchable links.now index.now p.now nodes }
    ensures { (net : Network) (t : Tree) (c : Candidate)
        → TreeHeld net t links.now index.now p.now p.now.links nodes → Degrees net index.now.degrees
        → Prior (ahead fewer_nodes) net tree t c → Says before c
        → Says result (first_from (ahead fewer_nodes) c (tree_candidates net tree t)) }
{
    let mut figures = NO_FIGURES;
    figures.weigh_places(nodes, &p.node, &index.degrees);
    let mut best = before;
    for u in (1..nodes).rev() {
        figures.make_row(nodes, links, index, p, u);
        best = search_row(&figures, nodes, &p.stops, &p.links, tree, u, best);
    }
    best
}
