// Searches all trees of a sheet that was read, each grown and placed from its record, and makes the side of what is found.
#![tactic(auto)]

ghost use Rattle.cuts.specs.Candidate.{fewer_nodes};
ghost use Rattle.cuts.specs.Answer.{reported};
ghost use Rattle.arrays.specs.Sheets.{network_of};
ghost use Rattle.search_sheet.specs.Reported.{ReportedSays};

use arrays::NO_INDEX;
use arrays::listed_sheets::ListedSheet;
use arrays::sheets::Sheet;
use search_order::{Found, unfound};
use search_tree::search_tree;
use sheet_trees::{index_sheet, place_record};
use tree_sides::{SIDE_WORDS, side_of};

// The first candidate of a network, with its side.
#[derive(Drop)]
pub struct Reported {
    pub found: Found,
    pub side: [u64; SIDE_WORDS],
}

// The first candidate of a sheet's network. Its side is made from the places of its tree, as soon as that tree brings it.
pub fn search_listed(n: &ListedSheet) -> Reported
    ensures { ReportedSays result (reported fewer_nodes (network_of n.now.sheet)) }
{
    let nodes = n.sheet.layout.nodes;
    let mut best = unfound();
    let mut side = [0u64; SIDE_WORDS];
    for i in 0..n.sheet.layout.trees {
        let p = place_record(n.sheet.bytes, n.sheet.layout, i, n.sheet.links);
        best = search_tree(nodes, n.sheet.links, n.index, &p, i as u8, best);
        if best.tree as usize == i {
            side = side_of(nodes, &p, best.first, best.second);
        }
    }
    Reported { found: best, side }
}

// The first candidate of a sheet's network, whose links are listed by node first.
pub fn search_trees(n: &Sheet) -> Reported
    ensures { ReportedSays result (reported fewer_nodes (network_of n.now)) }
{
    let mut index = NO_INDEX;
    index_sheet(&mut index, n);
    search_listed(&ListedSheet {
        sheet: *n,
        index: &index,
    })
}
