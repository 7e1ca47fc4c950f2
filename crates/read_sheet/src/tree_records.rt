// Tree records: a share, then a map with one bit a link. They are read before there is a `Sheet`: the counts and the links that it will hold stand
// apart here, since a struct for three functions would be taken apart in each.
ghost use Rattle.std.specs.Prelude.{◌≡◌, ◌+◌, ◌*◌, ◌≤◌, false, MatchOption};
ghost use Rattle.cuts.specs.Limits.{most_links};
ghost use Rattle.cuts.specs.Sums.{table};
ghost use Rattle.cuts.specs.Network.{Network, Tree, link_count};
ghost use Rattle.cuts.specs.Tree.{spans};
ghost use Rattle.arrays.specs.Links.{ends_of, Held};
ghost use Rattle.arrays.specs.Grown.{TreeOrdered};
ghost use Rattle.arrays.specs.Records.{record_at, map_at};
ghost use Rattle.sheet.specs.Bytes.{map_bit};
ghost use Rattle.sheet.specs.Reading.{first_failing};
ghost use Rattle.sheet.specs.Sheet.{map_length, tree_length, map_checks};
ghost use Rattle.format.specs.Refusals.{returned};
ghost use Rattle.read_sheet.specs.TreesRead.{PositionFits, RecordWhole, MapSized, MapCounted, TreesAhead, TreeRead, TreesRead};

use arrays::Links;
use format::limits::MOST_NODES;
use format::maps::{list_members, ones, stray_bit};
use format::refusals::Refusal;
use tree_growth::{Grown, grow};

// The bytes of a tree's share, in front of its map.
const SHARE_LENGTH: usize = 4;

// The bytes of a tree's link map.
fn map_length(links: usize) -> usize
    requires { links ≤ most_links }
    ensures { result ≡ map_length links }
{
    links.div_ceil(8)
}

// The bytes of a tree record.
pub fn tree_length(links: usize) -> usize
    requires { links ≤ most_links }
    ensures { result ≡ tree_length links }
{
    SHARE_LENGTH + map_length(links)
}

// Where the record of a tree stands, of the tree records from a position on.
pub fn record_at(at: usize, links: usize, tree: usize) -> usize
    requires { PositionFits at links tree }
    ensures { result ≡ record_at links at tree }
{
    at + tree * tree_length(links)
}

// The link map of the tree record at a position.
pub fn tree_map(s: &[u8], at: usize, links: usize) -> &[u8]
    requires { RecordWhole s.now at links }
    ensures { result.now ≡ map_at s.now at links }
{
    let map_at = at + SHARE_LENGTH;
    let end = map_at + map_length(links);
    &s[map_at..end]
}

// Whether a tree can have the map's bits, or the first refusal.
fn check_map(map: &[u8], nodes: usize, links: usize) -> Result<(), Refusal>
    requires { MapSized map.now nodes links }
    ensures { returned result ≡ first_failing (map_checks nodes links map.now) }
{
    if stray_bit(map, links) {
        return Err(Refusal::StrayBit);
    }
    if ones(map) != nodes - 1 {
        return Err(Refusal::MemberCount);
    }
    Ok(())
}

// Grows the tree whose members are in a map of so many links, `None` where they do not join all nodes.
pub fn grow_tree(map: &[u8], nodes: usize, count: usize, links: &Links) -> Option<Grown>
    requires { MapCounted map.now nodes count (ends_of links.now) }
    ensures { (net : Network) (t : Tree) → Held net links.now.firsts links.now.seconds nodes
        → link_count net ≡ count → t.members ≡ table count (map_bit map.now)
        → MatchOption result (spans net t ≡ false) (λ g. TreeOrdered net t g.order g.parents g.uplinks) }
{
    let mut members = [0u16; MOST_NODES];
    let found = list_members(&mut members, map, count);
    grow(nodes, &links.firsts, &links.seconds, &members[..found])
}

// The tree record at a position. Answers where it ends. Not inlined: how fast a search is depends on where the linker puts it, and so on the code in
// front (docs/DECISIONS.md, 168).
#[inline(never)]
pub fn read_tree(
    s: &[u8],
    at: usize,
    nodes: usize,
    count: usize,
    links: &Links,
) -> Result<usize, Refusal>
    requires { TreesAhead s.now at nodes count (ends_of links.now) }
    ensures { TreeRead s.now at nodes count (ends_of links.now) result }
{
    let size = tree_length(count);
    if s.len() - at < size {
        return Err(Refusal::CutOffTree);
    }
    let map = tree_map(s, at, count);
    check_map(map, nodes, count)?;
    match grow_tree(map, nodes, count, links) {
        Some(_) => Ok(at + size),
        None => Err(Refusal::NotJoined),
    }
}

// As many tree records as `trees` says, from a position on. Answers where they end.
pub fn read_trees(
    s: &[u8],
    from: usize,
    nodes: usize,
    count: usize,
    trees: usize,
    links: &Links,
) -> Result<usize, Refusal>
    requires { TreesAhead s.now from nodes count (ends_of links.now) }
    ensures { TreesRead s.now from nodes count trees (ends_of links.now) result }
{
    let mut at = from;
    for _tree in 0..trees {
        at = read_tree(s, at, nodes, count, links)?;
    }
    Ok(at)
}
