// A side as words of bits, one a node, and its number of nodes, made from the places of a tree.
#![tactic(auto)]

pub mod counts; // the number of nodes

ghost use Rattle.std.specs.Prelude.{◌≡◌, ◌≤◌, MatchOption};
ghost use Rattle.cuts.specs.Network.{Network, Tree};
ghost use Rattle.cuts.specs.Limits.{most_nodes};
ghost use Rattle.cuts.specs.Candidate.{Fits, side_of};
ghost use Rattle.arrays.specs.Kept.{Kept};
ghost use Rattle.search_order.specs.Choice.{chosen};
ghost use Rattle.place_layers.specs.Layers.{FourLayers};
ghost use Rattle.tree_sides.specs.Sides.{EitherPlaces, NoPlace, StandsAt};
ghost use Rattle.tree_sides.specs.NodeLayers.{NodesPlaceable, NodesBefore, odd_words, SideWords, SideAt, SideGiven};

use bit_table::flip_bit;
use format::limits::MOST_NODES;
use place_layers::{LAYER, LAYERS, odd_word, sum_layers};
use tree_places::Places;

// The words of a side, which has a bit for each node that there may be, as a layer has.
pub const SIDE_WORDS: usize = LAYER;

// The place of a member's lower end, `None` where no place has the link.
fn place_of(nodes: usize, links: &[u16; MOST_NODES], link: u16) -> Option<usize>
    requires { nodes ≤ most_nodes }
    ensures { MatchOption result (NoPlace nodes links.now link) (StandsAt nodes links.now link) }
{
    for p in 1..nodes {
        if links[p] == link {
            return Some(p);
        }
    }
    None
}

// Sets the bit of each node in the layers of the places behind its own; no bit is set before.
pub fn node_layers(layers: &mut [u64], nodes: usize, place: &[u8; MOST_NODES])
    requires { NodesPlaceable layers.old nodes }
    ensures { NodesBefore nodes place.now layers.new }
{
    for x in 0..nodes {
        flip_bit(layers, MOST_NODES * (place[x] as usize + 1) + x);
    }
    sum_layers(layers, nodes);
}

// The words of the bits that are set in an odd number of four layers.
fn odd_words(layers: &[u64; LAYERS], a: usize, b: usize, c: usize, d: usize) -> [u64; SIDE_WORDS]
    requires { FourLayers a b c d }
    ensures { result ≡ odd_words layers.now a b c d }
{
    std::array::from_fn(|j| odd_word(layers, a, b, c, d, j))
}

// The side of the links at two places, of one link where these are equal, from the layers of the tree's nodes.
pub fn side_at(
    layers: &[u64; LAYERS],
    stops: &[u16; MOST_NODES],
    u: usize,
    v: usize,
) -> [u64; SIDE_WORDS]
    requires { EitherPlaces stops.now u v }
    ensures { SideAt layers.now stops.now u v result }
{
    let to = stops[u] as usize;
    if u == v {
        return odd_words(layers, to, u, 0, 0);
    }
    let end = stops[v] as usize;
    odd_words(layers, to, u, end, v)
}

// The side of the member `first` alone where `second` is equal to it, else of both.
pub fn side_of(nodes: usize, p: &Places, first: u16, second: u16) -> [u64; SIDE_WORDS]
    requires { SideGiven nodes p.now.stops }
    ensures { (net : Network) (t : Tree) → Kept net t p.now.place p.now.node p.now.stops p.now.links
        → net.nodes ≡ nodes → Fits net t (chosen first second)
        → SideWords result (side_of net t (chosen first second)) }
{
    let u = place_of(nodes, &p.links, first).unwrap_or(0);
    let v = place_of(nodes, &p.links, second).unwrap_or(0);
    let mut layers = [0; LAYERS];
    node_layers(&mut layers, nodes, &p.place);
    side_at(&layers, &p.stops, u, v)
}
