// The pair sheet: reads a sheet, and writes the weights of all pairs of one tree's links where the area can hold them all.
#![tactic(auto)]

ghost use Rattle.std.specs.Prelude.{◌≡◌, [], ◌-◌};
ghost use Rattle.cuts.specs.Network.{tree_at};
ghost use Rattle.sheet.specs.Sheet.{current};
ghost use Rattle.pairs.specs.Slots.{row_start};
ghost use Rattle.pairs.specs.PairsWritten.{pairs_fitting, PairsWritten};
ghost use Rattle.format.specs.Refusals.{returned};
ghost use Rattle.arrays.specs.Sheets.{network_of};
ghost use Rattle.pair_rows.specs.Writing.{PairsLeft};
ghost use Rattle.op_pairs.specs.Areas.{NodesCounted, TreeWritable, AreaLeft};

use arrays::sheets::Sheet;
use arrays::{Links, NO_INDEX};
use format::refusals::Refusal;
use pair_rows::write_pairs;
use read_sheet::read_sheet;
use row_starts::row_start;
use sheet_trees::{index_sheet, rank_record};

// How many pairs a tree of so many nodes has: those of all rows before its last rank's, and one for each rank below that.
fn pair_count(nodes: usize) -> usize
    requires { NodesCounted nodes }
    ensures { result ≡ row_start (nodes - 1) }
{
    let last = nodes - 2;
    row_start(last) as usize + last
}

// Writes the weights of all pairs of a tree of a sheet that was read.
fn write_tree(area: &mut [u64], n: &Sheet, tree: usize)
    requires { TreeWritable area.old n.now tree }
    ensures { PairsLeft (network_of n.now) (tree_at (network_of n.now) tree) area.old area.new }
{
    let mut index = NO_INDEX;
    index_sheet(&mut index, n);
    let r = rank_record(n.bytes, n.layout, tree, n.links);
    write_pairs(area, n.layout.nodes, n.links, &index, &r);
}

// The same, if the sheet has the tree and the area has room for all its pairs.
fn pair_network(area: &mut [u64], n: &Sheet, tree: usize) -> Result<(), Refusal>
    ensures { AreaLeft tree (pairs_fitting tree area.old (network_of n.now) [])
        area.old area.new (returned result) }
{
    if tree >= n.layout.trees {
        return Err(Refusal::NoTree);
    }
    if area.len() < pair_count(n.layout.nodes) {
        return Err(Refusal::ShortPairs);
    }
    write_tree(area, n, tree);
    Ok(())
}

// Reads a sheet, into links that are lent, and writes the weights of all pairs of a tree's links, each at its slot; or answers the first
// refusal and leaves the area as it was.
pub fn pair_sheet(
    area: &mut [u64],
    links: &mut Links,
    sheet: &[u8],
    tree: usize,
) -> Result<(), Refusal>
    ensures { PairsWritten current sheet.now tree area.old area.new (returned result) }
{
    let layout = read_sheet(links, sheet)?;
    let n = Sheet {
        bytes: sheet,
        layout,
        links,
    };
    pair_network(area, &n, tree)
}
