// The packing bound: which trees count, the load that they put on each link, and the floor and the verdict that follow.
// Bytes, layout and weights are given one by one, and not as a `Sheet`: the floor is of any network with these weights, as docs/TRUST.md says.
#![tactic(auto)]

ghost use Rattle.std.specs.Prelude.{◌≡◌, ◌*◌, ◌≤◌, min, drop};
ghost use Rattle.cuts.specs.Sums.{any_to};
ghost use Rattle.cuts.specs.Network.{Network};
ghost use Rattle.cuts.specs.Bound.{counted, floor};
ghost use Rattle.cuts.specs.Answer.{verdict_of};
ghost use Rattle.arrays.specs.Links.{Weighed};
ghost use Rattle.sheet.specs.Sheet.{current};
ghost use Rattle.arrays.specs.Records.{trees_from};
ghost use Rattle.packing.specs.Loads.{TreesThere, Loading, overfull, Roomy, ShareAdded, TreeTested, most_shares, Unloaded, TreesCounted};
ghost use Rattle.packing.specs.Verdicts.{verdict_number};

use arrays::Layout;
use format::limits::MOST_LINKS;
use format::maps::bit_set;
use format::numbers::four;
use read_sheet::tree_records::{record_at, tree_map};

// Whether a tree's share would load one of its members past the link's weight.
fn overloads(map: &[u8], links: usize, weights: &[u32], loads: &[u32], share: u32) -> bool
    requires { Loading links map.now weights.now loads.now }
    ensures { result ≡ any_to links
        (overfull map.now share weights.now loads.now) }
{
    (0..links).any(|k| weights[k] - loads[k] < share && bit_set(map, k))
}

// Adds a tree's share to the load of each of its members.
fn add_share(loads: &mut [u32], map: &[u8], links: usize, share: u32)
    requires { Roomy links map.now share loads.old }
    ensures { ShareAdded map.now share loads.old loads.new links }
{
    for k in 0..links {
        if bit_set(map, k) {
            loads[k] += share;
        }
    }
}

// Counts a tree, unless it would load a link past its weight: answers whether it counts, and if so adds its share to the loads of its
// members; else the loads are as they were.
fn count_tree(loads: &mut [u32], map: &[u8], links: usize, weights: &[u32], share: u32) -> bool
    requires { Loading links map.now weights.now loads.old }
    ensures { TreeTested map.now links weights.now share
        loads.old loads.new result }
{
    let counts = !overloads(map, links, weights, loads, share);
    if counts {
        add_share(loads, map, links, share);
    }
    counts
}

// Counts the trees of a sheet up to the first that would load a link past its weight. No link has any load yet; afterwards the links have the
// loads of the trees that count. Answers the sum of their shares.
fn count_trees(
    loads: &mut [u32; MOST_LINKS],
    bytes: &[u8],
    layout: Layout,
    weights: &[u32; MOST_LINKS],
) -> u64
    requires { Unloaded loads.old bytes.now layout }
    ensures { TreesCounted bytes.now layout weights.now loads.new result }
{
    let mut sum = 0;
    for i in 0..layout.trees {
        let at = record_at(layout.records, layout.links, i);
        let share = four(bytes, at);
        let map = tree_map(bytes, at, layout.links);
        if !count_tree(loads, map, layout.links, weights, share) {
            break;
        }
        sum += u64::from(share);
    }
    sum
}

// The packing bound, held to the weight found: the lesser of it and three times the shares.
fn floor_from(shares: u64, weight: u64) -> u64
    requires { shares ≤ most_shares }
    ensures { result ≡ min weight (3 * shares) }
{
    weight.min(3 * shares)
}

// The floor that the trees of a sheet give, where `weight` is that of the cut found.
pub fn floor_of(bytes: &[u8], layout: Layout, weights: &[u32; MOST_LINKS], weight: u64) -> u64
    requires { TreesThere bytes.now layout }
    ensures { (net : Network) → Weighed net weights.now layout.links
        → result ≡ floor (counted current.rules.counting net
        (trees_from net layout.trees (drop layout.records bytes.now))) weight }
{
    let mut loads = [0u32; MOST_LINKS];
    let shares = count_trees(&mut loads, bytes, layout, weights);
    floor_from(shares, weight)
}

// What is certified of the cut found.
#[derive(Clone, Copy, Debug, PartialEq, Eq)]
pub enum Verdict {
    // It is a lightest one of those that the trees show.
    TreesOnly = 1,
    // It is a lightest one of the whole network.
    Whole = 2,
}

impl Verdict {
    // The verdict that a floor gives, where `weight` is that of the cut found.
    pub fn of(floor: u64, weight: u64) -> Verdict
        ensures { verdict_number result ≡ verdict_of floor weight }
    {
        if floor == weight {
            Verdict::Whole
        } else {
            Verdict::TreesOnly
        }
    }
}

impl From<Verdict> for u8 {
    ghost from_gives = { λ verdict number. number ≡ verdict_number verdict };

    fn from(verdict: Verdict) -> u8 {
        verdict as u8
    }
}
