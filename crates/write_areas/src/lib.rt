// Writes sides and a report to the areas of a caller.
#![tactic(auto)]

ghost use Rattle.std.specs.Prelude.{◌≡◌, suc, ◌*◌, ◌≤◌, length};
ghost use Rattle.cuts.specs.Cut.{Side};
ghost use Rattle.sheet.specs.Bytes.{field_bytes};
ghost use Rattle.sheet.specs.Sheet.{current};
ghost use Rattle.sheet.specs.Areas.{side_length, report_widths, report_length, written};
ghost use Rattle.tree_sides.specs.NodeLayers.{SideWords};
ghost use Rattle.write_areas.specs.ReportFields.{values_of};
ghost use Rattle.write_areas.specs.SideSlots.{put_side};

use format::limits::SIDE_LENGTH;
use format::numbers::{put_eight, put_two};
use tree_sides::SIDE_WORDS;

// What a report has for the second link of a single one: a number, as the C interface has it.
pub const NO_SECOND: u16 = 65535;

// The fields of the report area, in their order, as the C interface has them.
#[derive(Drop)]
pub struct Report {
    pub verdict: u8,
    pub tree: u8,
    pub count: u16,
    pub first: u16,
    pub second: u16,
    pub weight: u64,
    pub floor: u64,
}

// Writes a side, given as words, to the 32 bytes of a slot: node k is bit k mod 8 of byte k / 8.
pub fn put_side(area: &mut [u8], slot: usize, words: [u64; SIDE_WORDS])
    requires { side_length * suc slot ≤ length area.old }
    ensures { (s : Side) → SideWords words s → area.new ≡ put_side slot s area.old }
{
    let from = SIDE_LENGTH * slot;
    for (k, word) in words.iter().enumerate() {
        put_eight(area, from + 8 * k, *word);
    }
}

// Writes a report.
pub fn write_report(area: &mut [u8], r: Report)
    requires { report_length current ≤ length area.old }
    ensures { area.new ≡ written (field_bytes (report_widths current) (values_of r)) area.old }
{
    area[0] = r.verdict;
    area[1] = r.tree;
    put_two(area, 2, r.count);
    put_two(area, 4, r.first);
    put_two(area, 6, r.second);
    put_eight(area, 8, r.weight);
    put_eight(area, 16, r.floor);
}
