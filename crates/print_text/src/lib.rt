// Words and decimal numbers, printed one behind the other to a buffer, and the line of a refusal.
#![tactic(auto)]

ghost use Rattle.std.specs.Prelude.{◌≡◌, ◌≤◌, length};
ghost use Rattle.std.specs.Fn.{FnOnceTakesAtMut, FnOnceReturnsAtMut};
ghost use Rattle.print_text.specs.Decimal.{Text};
ghost use Rattle.print_text.specs.Line.{refused_line, Printed, Blank, text_of, rest_of, PutIn, in_room};

mod digits;
mod printer;

pub use printer::Printer;

// What `put` prints, as a part of the buffer; a buffer that has no room for `most` bytes gets none.
pub fn print_in_room<'a, F: FnOnce(&mut Printer)>(
    out: &'a mut [u8],
    most: usize,
    put: F,
) -> &'a mut [u8]
    requires { most ≤ length out.old → (old : Printed) → Blank out old → FnOnceTakesAtMut F.FnOnce put old }
    ensures { (text : Text)
        → ((old new : Printed) → Blank out.entry old → FnOnceReturnsAtMut F.FnOnce put old tt new → text_of new ≡ text)
        → result.now ≡ in_room most out.old text }
{
    if out.len() < most {
        return &mut out[..0];
    }
    let mut printer = Printer::new(out);
    put(&mut printer);
    printer.into_text()
}

// Prints the line of a refusal.
#[tactic(auto, using(crate::proofs::DecimalLaws::few_digits))]
pub fn refused_line(printer: &mut Printer, number: u32)
    requires { 19 ≤ length (rest_of printer.old) }
    ensures { PutIn 19 printer.old (refused_line number) printer.new }
{
    printer.put_word(b"refused");
    printer.put_field(number as u64);
    printer.put_byte(b'\n');
}
