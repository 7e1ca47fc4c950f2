// What the program `trunks` prints for a sheet, as bytes.
#![tactic(auto)]

ghost use Rattle.std.specs.Prelude.{◌≡◌, ◌≤◌, ◌<◌, length};
ghost use Rattle.cuts.specs.Limits.{most_links};
ghost use Rattle.sheet.specs.Sheet.{current};
ghost use Rattle.sheet.specs.Trunks.{trunks};
ghost use Rattle.print_text.specs.Line.{PutIn, rest_of, in_room};
ghost use Rattle.print_trunks.specs.Output.{link_line, lines_from, output, most_line, most_output};

use format::limits::MOST_LINKS;
use format::numbers::two;
use op_trunks::read_trunks;
use print_text::{Printer, print_in_room, refused_line};

// No line has more bytes: four digits, a space, five digits and the line feed.
const MOST_LINE: usize = 11;

// No output has more bytes: a line for each link.
pub const MOST_OUTPUT: usize = MOST_LINKS * MOST_LINE;

// Prints the line of a link.
#[tactic(auto, using(print_text::proofs::DecimalLaws::few_digits))]
fn link_line(printer: &mut Printer, link: usize, trunk: u16)
    requires room { most_line ≤ length (rest_of printer.old) }
    requires numbered { link < most_links }
    ensures { PutIn most_line printer.old (link_line link trunk) printer.new }
{
    printer.put_decimal(link as u64);
    printer.put_field(trunk as u64);
    printer.put_byte(b'\n');
}

// Prints the lines of the links that have these trunk numbers.
fn link_lines(printer: &mut Printer, numbers: &[u16])
    requires room { most_output ≤ length (rest_of printer.old) }
    requires few { length numbers.now ≤ most_links }
    ensures { PutIn most_output printer.old (lines_from 0 numbers.now) printer.new }
{
    for (link, trunk) in numbers.iter().enumerate() {
        link_line(printer, link, *trunk);
    }
}

// Prints what the program prints for a sheet.
fn put_output(printer: &mut Printer, sheet: &[u8])
    requires { most_output ≤ length (rest_of printer.old) }
    ensures { PutIn most_output printer.old (output (trunks current sheet.now)) printer.new }
{
    let mut numbers = [0u16; MOST_LINKS];
    match read_trunks(&mut numbers, sheet) {
        Ok(()) => link_lines(printer, &numbers[..two(sheet, 2)]),
        Err(refusal) => refused_line(printer, u32::from(refusal)),
    }
}

// What the program prints for a sheet, as a part of the buffer; a buffer that has no room for every output gets none.
pub fn trunk_lines<'a>(out: &'a mut [u8], sheet: &[u8]) -> &'a mut [u8]
    ensures { result.now ≡ in_room most_output out.old (output (trunks current sheet.now)) }
{
    print_in_room(out, MOST_OUTPUT, |printer| put_output(printer, sheet))
}
