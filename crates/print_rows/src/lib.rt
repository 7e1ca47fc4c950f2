// What the program `rows` prints, as bytes: where the rows of a pair sheet start, from the formula.
#![tactic(auto)]

ghost use Rattle.std.specs.Prelude.{◌≡◌, ◌≤◌, ◌<◌, length};
ghost use Rattle.pairs.specs.Slots.{row_start};
ghost use Rattle.print_text.specs.Line.{PutIn, rest_of, in_room};
ghost use Rattle.print_rows.specs.Output.{row_line, output, most_line, most_output};

use print_text::{Printer, print_in_room};
use row_starts::{ROWS, row_formula};

// No line has more bytes: five digits and the line feed.
const MOST_LINE: usize = 6;

// No output has more bytes: a line for each rank.
pub const MOST_OUTPUT: usize = ROWS * MOST_LINE;

// Prints the line of a rank.
#[tactic(auto, using(print_text::proofs::DecimalLaws::few_digits))]
fn row_line(printer: &mut Printer, rank: usize)
    requires room { most_line ≤ length (rest_of printer.old) }
    requires ranked { rank < 255 }
    ensures { PutIn most_line printer.old (row_line (row_start rank)) printer.new }
{
    printer.put_decimal(row_formula(rank) as u64);
    printer.put_byte(b'\n');
}

// Prints what the program prints.
fn put_output(printer: &mut Printer)
    requires { most_output ≤ length (rest_of printer.old) }
    ensures { PutIn most_output printer.old output printer.new }
{
    for rank in 0..ROWS {
        row_line(printer, rank);
    }
}

// What the program prints, as a part of the buffer; a buffer that has no room for it gets none.
pub fn row_lines<'a>(out: &'a mut [u8]) -> &'a mut [u8]
    ensures { result.now ≡ in_room most_output out.old output }
{
    print_in_room(out, MOST_OUTPUT, put_output)
}
