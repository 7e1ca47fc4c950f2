// The links of a sheet that was read, by node, and its trees, each made from its record: its link map, its places and its ranks.
// A tree's bytes, layout and links are given one by one, and not as a `Sheet`, since they hold with whatever weights: docs/TRUST.md.
#![tactic(auto)]

ghost use Rattle.std.specs.Prelude.{◌≡◌};
ghost use Rattle.arrays.specs.Records.{record_of, map_at};
ghost use Rattle.arrays.specs.Sheets.{SheetListed};
ghost use Rattle.sheet_trees.specs.Trees.{RecordThere, TreeListed, TreePlaced, TreeRanked};

use arrays::sheets::Sheet;
use arrays::{Index, Layout, Links};
use by_node::index_links;
use read_sheet::tree_records::{grow_tree, record_at, tree_map};
use tree_places::{Places, place_tree};
use tree_ranks::{Ranked, rank_places};

// Lists the links by node and weighs the nodes.
pub fn index_sheet(index: &mut Index, n: &Sheet)
    ensures { SheetListed n.now index.new }
{
    index_links(index, n.layout.nodes, n.layout.links, n.links);
}

// The link map of a tree.
pub fn map_of(bytes: &[u8], layout: Layout, tree: usize) -> &[u8]
    requires { RecordThere bytes.now layout tree }
    ensures { result.now ≡ map_at bytes.now (record_of layout tree) layout.links }
{
    let at = record_at(layout.records, layout.links, tree);
    tree_map(bytes, at, layout.links)
}

// A tree by its places, grown from its record. Not inlined: what growing and placing a tree take is then given back before the tree is searched.
#[inline(never)]
pub fn place_record(bytes: &[u8], layout: Layout, tree: usize, links: &Links) -> Places
    requires { TreeListed bytes.now links.now layout tree }
    ensures { TreePlaced bytes.now links.now layout tree result }
{
    let map = map_of(bytes, layout, tree);
    let grown = grow_tree(map, layout.nodes, layout.links, links);
    place_tree(layout.nodes, &grown.unwrap())
}

// A tree by its places and ranks.
pub fn rank_record(bytes: &[u8], layout: Layout, tree: usize, links: &Links) -> Ranked
    requires { TreeListed bytes.now links.now layout tree }
    ensures { TreeRanked bytes.now links.now layout tree result }
{
    let p = place_record(bytes, layout, tree, links);
    rank_places(layout.nodes, layout.links, p)
}
