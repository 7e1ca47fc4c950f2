// The report of a sheet: reads it, works out its answer and writes both areas, which are lent apart, as the C interface has them.
#![tactic(auto)]

ghost use Rattle.std.specs.Prelude.{◌≡◌};
ghost use Rattle.sheet.specs.Sheet.{current};
ghost use Rattle.sheet.specs.Areas.{second_link};
ghost use Rattle.format.specs.Refusals.{returned};
ghost use Rattle.arrays.specs.Sheets.{network_of};
ghost use Rattle.search_order.specs.Choice.{chosen};
ghost use Rattle.op_report.specs.Reports.{Room, AreasWritten, AnswerWritten, SheetReported};

use arrays::Links;
use arrays::sheets::Sheet;
use format::refusals::Refusal;
use read_sheet::read_sheet;
use search_answer::{Answer, answer_sheet};
use write_areas::{NO_SECOND, Report, put_side, write_report};

// The second link as the report has it.
fn second_link(first: u16, second: u16) -> u16
    ensures { result ≡ second_link (chosen first second) }
{
    if first == second { NO_SECOND } else { second }
}

// Writes both areas, the side of the cut found and the report.
fn write_both(side: &mut [u8], report: &mut [u8], a: Answer)
    requires { Room side.old report.old }
    ensures { AreasWritten a side.old report.old side.new report.new }
{
    put_side(side, 0, a.best.side);
    let found = a.best.found;
    let fields = Report {
        verdict: u8::from(a.verdict),
        tree: found.tree,
        count: found.count,
        first: found.first,
        second: second_link(found.first, found.second),
        weight: found.weight,
        floor: a.floor,
    };
    write_report(report, fields);
}

// Writes the answer of a sheet that was read.
fn write_answer(side: &mut [u8], report: &mut [u8], n: &Sheet)
    requires { Room side.old report.old }
    ensures { AnswerWritten (network_of n.now) side.old report.old side.new report.new }
{
    write_both(side, report, answer_sheet(n));
}

// Reads a sheet, into links that are lent, and writes both areas; or answers the first refusal and leaves both as they were.
pub fn report_sheet(
    side: &mut [u8],
    report: &mut [u8],
    links: &mut Links,
    sheet: &[u8],
) -> Result<(), Refusal>
    requires { Room side.old report.old }
    ensures { SheetReported current sheet.now
        side.old report.old side.new report.new (returned result) }
{
    let layout = read_sheet(links, sheet)?;
    let n = Sheet {
        bytes: sheet,
        layout,
        links,
    };
    write_answer(side, report, &n);
    Ok(())
}
