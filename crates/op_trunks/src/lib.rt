// The cable crew's reader: the trunk number of each link of a sheet.
#![tactic(auto)]

ghost use Rattle.sheet.specs.Sheet.{current};
ghost use Rattle.format.specs.Refusals.{returned};
ghost use Rattle.op_trunks.specs.TrunksRead.{TrunksRead};

use arrays::NO_LINKS;
use format::limits::{HEADER_LENGTH, MOST_LINKS};
use format::refusals::Refusal;
use read_links::trunks::trunk_numbers;
use read_sheet::read_sheet;

// Reads a sheet and writes the trunk number of each link to the front of the area; or answers the first refusal, which is the panel
// reader's, and leaves the area as it was.
pub fn read_trunks(numbers: &mut [u16; MOST_LINKS], sheet: &[u8]) -> Result<(), Refusal>
    ensures { TrunksRead current sheet.now numbers.old numbers.new (returned result) }
{
    let mut links = NO_LINKS;
    let l = read_sheet(&mut links, sheet)?;
    trunk_numbers(numbers, sheet, HEADER_LENGTH, l.links);
    Ok(())
}
