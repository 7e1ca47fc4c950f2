// Grows a tree from the root, node 0, in time linear in its nodes and members: each node's members are looked at once, when its turn in
// the order comes. The tree may be any choice of links; one that does not join all nodes does not grow.
// The ends of link k stand in firsts[k] and seconds[k], as in `by_node`.
#![tactic(auto)]

ghost use Rattle.std.specs.Prelude.{◌≡◌, false, MatchOption};
ghost use Rattle.cuts.specs.Network.{Network, Tree};
ghost use Rattle.cuts.specs.Tree.{spans};
ghost use Rattle.cuts.specs.Candidate.{member_links};
ghost use Rattle.arrays.specs.Links.{Held};
ghost use Rattle.arrays.specs.Grown.{Given, GrownTree, TreeOrdered};
ghost use Rattle.arrays.specs.ByNode.{ByNode};
ghost use Rattle.tree_growth.specs.Growing.{Growable, Queueable};

use arrays::STARTS;
use by_node::{far_end, list_by_node};
use format::limits::MOST_NODES;

// Each member stands among those of both its ends.
const MEMBER_RUNS: usize = 2 * MOST_NODES;

// A tree as it grew: its nodes in order, and each node's parent and parent link. Parents and links stand apart: a struct of both would take a
// byte more for each node.
#[derive(Drop)]
pub struct Grown {
    pub order: [u8; MOST_NODES],
    pub parents: [u8; MOST_NODES],
    pub uplinks: [u16; MOST_NODES],
}

// Whether the tree's members, listed by node, join every node to the root; if so, the tree is ordered. The order is a queue: its nodes are taken
// in turn, and each member of the one taken that leads to a node not reached yet, which its parent link does not, puts that node at the end.
// No `for` over the order, which grows while it is gone over; no Option, since the tree is filled where it stands.
fn grow_queue(
    tree: &mut Grown,
    nodes: usize,
    firsts: &[u8],
    seconds: &[u8],
    starts: &[u16],
    runs: &[u16],
) -> bool
    requires { Queueable nodes firsts.now seconds.now starts.now runs.now }
    ensures { (net : Network) (t : Tree) → Held net firsts.now seconds.now nodes
        → ByNode firsts.now seconds.now (member_links net t) starts.now runs.now nodes
        → GrownTree net t tree.new.order tree.new.parents tree.new.uplinks result }
{
    let mut reached = [false; MOST_NODES];
    reached[0] = true;
    tree.order[0] = 0;
    let mut found = 1;
    let mut i = 0;
    while found < nodes {
        if i == found {
            return false;
        }
        let x = tree.order[i];
        let start = starts[x as usize] as usize;
        let stop = starts[x as usize + 1] as usize;
        for &k in &runs[start..stop] {
            let y = far_end(firsts[k as usize], seconds[k as usize], x);
            if !reached[y as usize] {
                reached[y as usize] = true;
                tree.order[found] = y;
                tree.parents[y as usize] = x;
                tree.uplinks[y as usize] = k;
                found += 1;
            }
        }
        i += 1;
    }
    true
}

// Grows a tree from the list of its members, `None` where they do not join all nodes. Not inlined: what it takes of the stack is given back before
// the tree is placed.
#[inline(never)]
pub fn grow(nodes: usize, firsts: &[u8], seconds: &[u8], members: &[u16]) -> Option<Grown>
    requires { Growable firsts.now seconds.now members.now nodes }
    ensures { (net : Network) (t : Tree) → Given net t firsts.now seconds.now members.now nodes
        → MatchOption result (spans net t ≡ false) (λ g. TreeOrdered net t g.order g.parents g.uplinks) }
{
    let mut starts = [0u16; STARTS];
    let mut runs = [0u16; MEMBER_RUNS];
    list_by_node(&mut starts, &mut runs, nodes, firsts, seconds, members);
    let mut tree = Grown {
        order: [0; MOST_NODES],
        parents: [0; MOST_NODES],
        uplinks: [0; MOST_NODES],
    };
    if grow_queue(&mut tree, nodes, firsts, seconds, &starts, &runs) {
        Some(tree)
    } else {
        None
    }
}
