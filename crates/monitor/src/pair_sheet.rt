// The pair sheet: from a sheet and a tree's number to the weights of all pairs of that tree's links.
ghost use Rattle.sheet.specs.Sheet.{current};
ghost use Rattle.pairs.specs.PairsWritten.{PairsWritten};

use arrays::NO_LINKS;
use format::refusals::returned;
use op_pairs::pair_sheet;

// Reads a sheet, writes the weight of each pair of the tree's links to the area, for the ranks s below r at slot r(r - 1)/2 + s, and returns
// 0; or returns the number of the first refusal and leaves the area as it was.
pub fn wcut_pairs(sheet: &[u8], tree: u32, weights: &mut [u64]) -> u32
    ensures { PairsWritten current sheet.now tree
        weights.old weights.new result }
{
    let mut links = NO_LINKS;
    returned(pair_sheet(weights, &mut links, sheet, tree as usize))
}
