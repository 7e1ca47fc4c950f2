// The list of a sheet: from its bytes to the area of sides.
ghost use Rattle.sheet.specs.Sheet.{current};
ghost use Rattle.monitor.specs.ListEntry.{SidesListed};

use arrays::NO_LINKS;
use format::refusals::returned;
use op_list::list_sheet;

// Reads a sheet, writes every lightest cut that its trees show to the area, 32 bytes a side, and their number, and returns 0; or returns
// the number of the first refusal, writes 0 for the number of sides and leaves the area as it was.
pub fn wcut_list(sheet: &[u8], sides: &mut [u8], count: &mut u32) -> u32
    ensures { SidesListed current sheet.now
        sides.old sides.new count.new result }
{
    let mut links = NO_LINKS;
    returned(list_sheet(sides, count, &mut links, sheet))
}
