// Chooses between candidates in any order of visits: by weight, number of nodes in the side, tree, first link, one link before two, and
// second link. These decide between any two candidates of a network, so that it does not matter in which order they are visited.
#![tactic(auto)]

ghost use Rattle.std.specs.Prelude.{◌≡◌};
ghost use Rattle.cuts.specs.Candidate.{fewer_nodes, ahead};
ghost use Rattle.search_order.specs.Choice.{rest, comes_first, chosen, Says, said, Paired, unfound};

// More than any candidate weighs.
pub const NO_WEIGHT: u64 = u64::MAX;

// A candidate: the tree, its one or two links, which are equal where there is one, the weight and the number of nodes in the side. No Option for
// the second link: its cell in a table and its place in the order are those of two equal links.
#[derive(Clone, Copy)]
pub struct Found {
    pub tree: u8,
    pub first: u16,
    pub second: u16,
    pub weight: u64,
    pub count: u16,
}

// What decides between two candidates that are even in weight, nodes, tree and first link: 0 for one link, for two one more than the second.
// A number, as the definition has it, so that two compare in one step.
fn rest_of(first: u16, second: u16) -> u32
    ensures { result ≡ rest (chosen first second) }
{
    if first == second {
        0
    } else {
        second as u32 + 1
    }
}

// Whether `a` comes before `b`. Number by number: with two tuples compared, a search of many candidates of one weight takes a third longer.
pub fn comes_first(a: Found, b: Found) -> bool
    ensures { result ≡ comes_first (ahead fewer_nodes) (said a) (said b) }
{
    if a.weight != b.weight {
        return a.weight < b.weight;
    }
    if a.count != b.count {
        return a.count < b.count;
    }
    if a.tree != b.tree {
        return a.tree < b.tree;
    }
    if a.first != b.first {
        return a.first < b.first;
    }
    rest_of(a.first, a.second) < rest_of(b.first, b.second)
}

// The candidate of two links of a tree in either order, or of one link given twice, with its weight and the number of nodes in its side.
pub fn pair_of(tree: u8, a: u16, b: u16, weight: u64, count: u16) -> Found
    ensures { Paired tree a b weight count result }
{
    Found {
        tree,
        first: a.min(b),
        second: a.max(b),
        weight,
        count,
    }
}

// Where a search starts: no candidate yet, so that any one comes before it. No Option, which each candidate tried would have to be asked.
pub fn unfound() -> Found
    ensures { Says result unfound }
{
    Found {
        tree: 0,
        first: 0,
        second: 0,
        weight: NO_WEIGHT,
        count: 0,
    }
}
