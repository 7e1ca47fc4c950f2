// The archive that firmware links: each entry of `monitor` under its C name. A crate is an archive or a library that programs call, so that each
// stands in both.
#![tactic(auto)]

ghost use Rattle.corners.specs.CornersTold.{table_read, CornersTold};
ghost use Rattle.monitor.specs.Entry.{Reported};
ghost use Rattle.monitor.specs.ListEntry.{SidesListed};
ghost use Rattle.pairs.specs.PairsWritten.{PairsWritten};
ghost use Rattle.sheet.specs.Sheet.{current};
ghost use Rattle.thickness.specs.ThicknessTold.{ThicknessTold};

// The report of a sheet, by `monitor::report`.
#[unsafe(no_mangle)]
pub extern "C" fn wcut_report(sheet: &[u8], side: &mut [u8], report: &mut [u8]) -> u32
    ensures { Reported current sheet.now
        side.old report.old side.new report.new result }
{
    monitor::report::wcut_report(sheet, side, report)
}

// The list of a sheet, by `monitor::list`.
#[unsafe(no_mangle)]
pub extern "C" fn wcut_list(sheet: &[u8], sides: &mut [u8], count: &mut u32) -> u32
    ensures { SidesListed current sheet.now
        sides.old sides.new count.new result }
{
    monitor::list::wcut_list(sheet, sides, count)
}

// The corners of two sides, by `monitor::corner_table`.
#[unsafe(no_mangle)]
pub extern "C" fn wcut_corners(
    sheet: &[u8],
    first: &[u8],
    second: &[u8],
    table: &mut [u64; 16],
) -> u32
    ensures { CornersTold current sheet.now first.now second.now
        (table_read table.new) result }
{
    monitor::corner_table::wcut_corners(sheet, first, second, table)
}

// How thick a cable must be, by `monitor::cable`.
#[unsafe(no_mangle)]
pub extern "C" fn wcut_thickness(sheet: &[u8], link: u32, wanted: u64, thickness: &mut u32) -> u32
    ensures { ThicknessTold current sheet.now link wanted thickness.new result }
{
    monitor::cable::wcut_thickness(sheet, link, wanted, thickness)
}

// The pair sheet, by `monitor::pair_sheet`.
#[unsafe(no_mangle)]
pub extern "C" fn wcut_pairs(sheet: &[u8], tree: u32, weights: &mut [u64]) -> u32
    ensures { PairsWritten current sheet.now tree
        weights.old weights.new result }
{
    monitor::pair_sheet::wcut_pairs(sheet, tree, weights)
}
