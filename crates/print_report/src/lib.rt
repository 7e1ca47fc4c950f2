// What the report program prints for a sheet, as bytes.
#![tactic(auto)]

ghost use Rattle.std.specs.Prelude.{◌≡◌, [], ◌∷◌, map, ℕ, ◌+◌, ◌≤◌, length};
ghost use Rattle.cuts.specs.Sums.{select};
ghost use Rattle.cuts.specs.Limits.{most_nodes};
ghost use Rattle.sheet.specs.Bytes.{fields, map_bit};
ghost use Rattle.sheet.specs.Sheet.{current, decode};
ghost use Rattle.sheet.specs.Areas.{report_widths, handle_of, answer_of, answer_read};
ghost use Rattle.write_areas.specs.ReportFields.{values_of};
ghost use Rattle.print_text.specs.Decimal.{decimal};
ghost use Rattle.print_text.specs.Line.{space, fields_text, line, PutIn, rest_of, in_room};
ghost use Rattle.print_report.specs.Output.{answer_word, side_word, second_field, answer_fields, answer_lines, output, most_output};

use format::limits::{MOST_NODES, REPORT_LENGTH, SIDE_LENGTH};
use format::maps::bit_set;
use format::numbers::{eight, two};
use monitor::report::wcut_report;
use print_text::{Printer, print_in_room, refused_line};
use write_areas::{NO_SECOND, Report};

// No output has more bytes: line 1 takes 75 with each field at its largest, line 2 with all 256 nodes 919.
pub const MOST_OUTPUT: usize = 994;

// The report that stands in a report area. A function and no `From`, which would have to stand in the crate of the struct.
fn read_report(area: &[u8; REPORT_LENGTH]) -> Report
    ensures { values_of result ≡ fields (report_widths current) area.now }
{
    Report {
        verdict: area[0],
        tree: area[1],
        count: two(area, 2) as u16,
        first: two(area, 4) as u16,
        second: two(area, 6) as u16,
        weight: eight(area, 8),
        floor: eight(area, 16),
    }
}

// Prints the field of the second link.
#[tactic(auto, using(print_text::proofs::DecimalLaws::few_digits))]
fn put_second(printer: &mut Printer, second: u16)
    requires { 6 ≤ length (rest_of printer.old) }
    ensures { (e : ℕ)
        → PutIn 6 printer.old (space ∷ second_field (handle_of e second)) printer.new }
{
    if second == NO_SECOND {
        printer.put_word(b" -");
    } else {
        printer.put_field(second as u64);
    }
}

// Prints the line of a report.
#[tactic(auto, using(print_text::proofs::DecimalLaws::few_digits))]
fn answer_line(printer: &mut Printer, r: Report)
    requires { 75 ≤ length (rest_of printer.old) }
    ensures { PutIn 75 printer.old
        (line answer_word (answer_fields (answer_of (values_of r) []))) printer.new }
{
    printer.put_word(b"answer");
    printer.put_field(r.verdict as u64);
    printer.put_field(r.weight);
    printer.put_field(r.floor);
    printer.put_field(r.tree as u64);
    printer.put_field(r.first as u64);
    put_second(printer, r.second);
    printer.put_field(r.count as u64);
    printer.put_byte(b'\n');
}

// Prints the numbers of the nodes in a side.
fn put_nodes(printer: &mut Printer, side: &[u8; SIDE_LENGTH])
    requires { 914 ≤ length (rest_of printer.old) }
    ensures { PutIn 914 printer.old
        (fields_text (map decimal (select most_nodes (map_bit side.now)))) printer.new }
{
    for x in 0..MOST_NODES {
        if bit_set(side, x) {
            printer.put_field(x as u64);
        }
    }
}

// Prints the line of a side.
fn side_line(printer: &mut Printer, side: &[u8; SIDE_LENGTH])
    requires { 919 ≤ length (rest_of printer.old) }
    ensures { PutIn 919 printer.old
        (line side_word (map decimal (select most_nodes (map_bit side.now)))) printer.new }
{
    printer.put_word(b"side");
    put_nodes(printer, side);
    printer.put_byte(b'\n');
}

// Prints both lines of an answer that stands in the two areas.
fn answer_lines(printer: &mut Printer, side: &[u8; SIDE_LENGTH], report: &[u8; REPORT_LENGTH])
    requires { most_output ≤ length (rest_of printer.old) }
    ensures { PutIn most_output printer.old
        (answer_lines (answer_read current most_nodes side.now report.now)) printer.new }
{
    answer_line(printer, read_report(report));
    side_line(printer, side);
}

// Prints what the report program prints for a sheet. It reads a sheet as C does, and has the number that C has.
fn put_output(printer: &mut Printer, sheet: &[u8])
    requires { most_output ≤ length (rest_of printer.old) }
    ensures { PutIn most_output printer.old
        (output current (decode current sheet.now)) printer.new }
{
    let mut side = [0u8; SIDE_LENGTH];
    let mut report = [0u8; REPORT_LENGTH];
    let number = wcut_report(sheet, &mut side, &mut report);
    if number == 0 {
        answer_lines(printer, &side, &report);
    } else {
        refused_line(printer, number);
    }
}

// What the report program prints for a sheet, as a part of the buffer; a buffer that has no room for every output gets none.
pub fn report_lines<'a>(out: &'a mut [u8], sheet: &[u8]) -> &'a mut [u8]
    ensures { result.now ≡ in_room most_output out.old (output current (decode current sheet.now)) }
{
    print_in_room(out, MOST_OUTPUT, |printer| put_output(printer, sheet))
}
