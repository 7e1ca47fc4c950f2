// Numbers a tree's nodes by places, so that the nodes below each link stand side by side: a subtree has the places from its root's on,
// the heaviest child's first. Which nodes lie below a link is then an interval of places, worked out once for each tree.
// An order that fits no tree does no harm: places and stops then say nothing, and stay within MOST_NODES.
// Cost: a few steps for each node.
// Each pass asks that there are some nodes, and no more than there may be: of a number that all share a struct would say no more.
#![tactic(auto)]

ghost use Rattle.std.specs.Prelude.{◌≡◌, List, ℕ, ◌+◌, ◌%◌, ◌≤◌, ◌<◌};
ghost use Rattle.cuts.specs.Network.{Network, Tree};
ghost use Rattle.cuts.specs.Limits.{most_nodes};
ghost use Rattle.tree_places.specs.Places.{stop_numbers, SomeNodes, Rooted, Sized, Heaviest};
ghost use Rattle.tree_places.specs.Places.{PlacesOf, NodesOf, GatheredKnown, TreePlaced};
ghost use Rattle.tree_places.specs.Passes.{heavier, size_in, Settled};

use format::limits::MOST_NODES;
use tree_growth::Grown;

// The numbers that a place can be: as many as there may be nodes.
const PLACE_NUMBERS: u16 = MOST_NODES as u16;

// The numbers that a stop can be: each place's, and the one behind the last place.
const STOP_NUMBERS: u32 = MOST_NODES as u32 + 1;

// A tree by its places: the place of each node and, by place, the node, its stop, which is the first place behind its subtree, and its
// parent link. A struct for each place would take a byte more, and most passes read one of the three.
#[derive(Clone, Copy)]
pub struct Places {
    pub place: [u8; MOST_NODES],
    pub node: [u8; MOST_NODES],
    pub stops: [u16; MOST_NODES],
    pub links: [u16; MOST_NODES],
}

// The place of each node and its stop.
#[derive(Drop)]
struct Intervals {
    place: [u8; MOST_NODES],
    stop: [u16; MOST_NODES],
}

// The sum, which is at most MOST_NODES where the numbers are sizes of subtrees apart, so that no remainder is waited for.
fn sum(a: u16, b: u16) -> u16
    ensures { result ≡ (a + b) % stop_numbers }
{
    let s = a as u32 + b as u32;
    if s < STOP_NUMBERS {
        return s as u16;
    }
    (s % STOP_NUMBERS) as u16
}

// The size of each node's subtree: each node adds its own, one at first, to its parent's, the last in the order first.
fn subtree_sizes(nodes: usize, g: &Grown) -> [u16; MOST_NODES]
    requires { SomeNodes nodes }
    ensures { (net : Network) (t : Tree) (uplinks : List ℕ) → Rooted net t g.now.order g.now.parents uplinks nodes
        → Sized net t uplinks result }
{
    let mut sizes = [1u16; MOST_NODES];
    for i in (1..nodes).rev() {
        let x = g.order[i] as usize;
        let p = g.parents[x] as usize;
        sizes[p] = sum(sizes[p], sizes[x]);
    }
    sizes
}

// The one of the nodes `h` and `x` with the larger size; `x` where `h` is 0.
fn heavier_one(sizes: &[u16; MOST_NODES], h: u8, x: u8) -> u8
    ensures { result ≡ heavier sizes.now h x }
{
    if h == 0 {
        return x;
    }
    if sizes[h as usize] < sizes[x as usize] {
        x
    } else {
        h
    }
}

// The child of each node with the largest size, 0 where there is none: the root is no child, so that a byte for each node is enough.
fn heaviest_children(nodes: usize, g: &Grown, sizes: &[u16; MOST_NODES]) -> [u8; MOST_NODES]
    requires { SomeNodes nodes }
    ensures { (net : Network) (t : Tree) (uplinks : List ℕ) → Rooted net t g.now.order g.now.parents uplinks nodes
        → Heaviest net g.now.parents sizes.now result }
{
    let mut heavy = [0u8; MOST_NODES];
    for &x in &g.order[1..nodes] {
        let p = g.parents[x as usize] as usize;
        heavy[p] = heavier_one(sizes, heavy[p], x);
    }
    heavy
}

// The size of the node `h`, 0 where it is 0, which stands for no child.
fn size_in(sizes: &[u16; MOST_NODES], h: u8) -> u16
    ensures { result ≡ size_in sizes.now h }
{
    if h == 0 { 0 } else { sizes[h as usize] }
}

// Gives node `x` the place `at`; its stop, which is `size` places on; and the first free place for a child other than its heaviest, behind
// the `heaviest` places of that one's subtree.
fn settle(
    place: &mut [u8; MOST_NODES],
    stop: &mut [u16; MOST_NODES],
    free: &mut [u16; MOST_NODES],
    x: usize,
    at: u16,
    size: u16,
    heaviest: u16,
)
    requires { x < most_nodes }
    ensures { Settled place.old stop.old free.old
        x at size heaviest place.new stop.new free.new }
{
    let next = sum(at, 1);
    place[x] = (at % PLACE_NUMBERS) as u8;
    stop[x] = sum(at, size);
    free[x] = sum(next, heaviest);
}

// The place and stop of each node, from the sizes and the heaviest children: the root at 0; the heaviest child of a node behind the node;
// its other children, as the order has them, behind that one's subtree and behind each other's.
fn place_nodes(
    nodes: usize,
    g: &Grown,
    sizes: &[u16; MOST_NODES],
    heavy: &[u8; MOST_NODES],
) -> Intervals
    requires { SomeNodes nodes }
    ensures { PlacesOf nodes g.now.order g.now.parents sizes.now heavy.now result.place result.stop }
{
    let mut place = [0u8; MOST_NODES];
    let mut stop = [0u16; MOST_NODES];
    let mut free = [0u16; MOST_NODES];
    settle(
        &mut place,
        &mut stop,
        &mut free,
        0,
        0,
        sizes[0],
        size_in(sizes, heavy[0]),
    );
    for &x in &g.order[1..nodes] {
        let x = x as usize;
        let p = g.parents[x] as usize;
        let mut at = place[p] as u16 + 1;
        if heavy[p] as usize != x {
            at = free[p];
            free[p] = sum(at, sizes[x]);
        }
        settle(
            &mut place,
            &mut stop,
            &mut free,
            x,
            at,
            sizes[x],
            size_in(sizes, heavy[x]),
        );
    }
    Intervals { place, stop }
}

// The node at each place.
fn nodes_by_place(nodes: usize, place: &[u8; MOST_NODES]) -> [u8; MOST_NODES]
    requires { SomeNodes nodes }
    ensures { NodesOf nodes place.now result }
{
    let mut node = [0u8; MOST_NODES];
    for x in 0..nodes {
        node[place[x] as usize] = x as u8;
    }
    node
}

// What `from` has for the node at each place, 0 past the last.
fn gather(nodes: usize, node: &[u8; MOST_NODES], from: &[u16; MOST_NODES]) -> [u16; MOST_NODES]
    requires { nodes ≤ most_nodes }
    ensures { GatheredKnown nodes node.now from.now result }
{
    let mut out = [0u16; MOST_NODES];
    for p in 0..nodes {
        out[p] = from[node[p] as usize];
    }
    out
}

// A tree by its places. Not inlined, as `tree_growth::grow`: the arrays of its passes then lie where those of growing the tree lay before.
#[inline(never)]
pub fn place_tree(nodes: usize, g: &Grown) -> Places
    requires { SomeNodes nodes }
    ensures { TreePlaced nodes g.now result }
{
    let sizes = subtree_sizes(nodes, g);
    let heavy = heaviest_children(nodes, g, &sizes);
    let Intervals { place, stop } = place_nodes(nodes, g, &sizes, &heavy);
    let node = nodes_by_place(nodes, &place);
    let stops = gather(nodes, &node, &stop);
    let links = gather(nodes, &node, &g.uplinks);
    Places {
        place,
        node,
        stops,
        links,
    }
}
