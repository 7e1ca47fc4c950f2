// The corners of two sides: from a sheet and two side maps to the table of the weights between the corners.
ghost use Rattle.sheet.specs.Sheet.{current};
ghost use Rattle.corners.specs.CornersTold.{table_read, CornersTold};

use arrays::NO_LINKS;
use format::refusals::returned;
use op_corners::corner_sheet;

// Reads a sheet, writes the weights between the four corners of the two sides that the maps give to the table, four rows of four one behind
// the other, and returns 0; or returns the number of the first refusal and writes zeros.
pub fn wcut_corners(sheet: &[u8], first: &[u8], second: &[u8], table: &mut [u64; 16]) -> u32
    ensures { CornersTold current sheet.now first.now second.now
        (table_read table.new) result }
{
    let mut links = NO_LINKS;
    returned(corner_sheet(table, &mut links, sheet, first, second))
}
