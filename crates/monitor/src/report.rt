// The report of a sheet: from its bytes to the side area and the report area.
ghost use Rattle.sheet.specs.Sheet.{current};
ghost use Rattle.monitor.specs.Entry.{Reported};

use arrays::NO_LINKS;
use format::limits::{REPORT_LENGTH, SIDE_LENGTH};
use format::refusals::{Refusal, returned};
use op_report::report_sheet;

// Reads a sheet, writes the lightest cut that its trees show to the side area and the report area, and returns 0; or returns the
// number of the first refusal and leaves both areas as they were.
pub fn wcut_report(sheet: &[u8], side: &mut [u8], report: &mut [u8]) -> u32
    ensures { Reported current sheet.now
        side.old report.old side.new report.new result }
{
    if side.len() < SIDE_LENGTH {
        return u32::from(Refusal::ShortSide);
    }
    if report.len() < REPORT_LENGTH {
        return u32::from(Refusal::ShortReport);
    }
    let mut links = NO_LINKS;
    returned(report_sheet(side, report, &mut links, sheet))
}
