// How thick a cable must be: from a sheet, a link and a wanted weight to the smallest weight of the link.
ghost use Rattle.sheet.specs.Sheet.{current};
ghost use Rattle.thickness.specs.ThicknessTold.{ThicknessTold};

use arrays::NO_LINKS;
use format::refusals::returned;
use op_thickness::sheet_thickness;

// Reads a sheet, writes the smallest weight of a link with which the reported weight is no less than wanted, and returns 0; or returns the
// number of the first refusal and writes 0.
pub fn wcut_thickness(sheet: &[u8], link: u32, wanted: u64, thickness: &mut u32) -> u32
    ensures { ThicknessTold current sheet.now link wanted thickness.new result }
{
    let mut links = NO_LINKS;
    returned(sheet_thickness(thickness, &mut links, sheet, link as usize, wanted))
}
