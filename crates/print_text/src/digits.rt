// Decimal digits in a buffer.
ghost use Rattle.std.specs.Prelude.{◌+◌, ◌≤◌, length};
ghost use Rattle.print_text.specs.Decimal.{decimal};
ghost use Rattle.print_text.specs.Line.{PutFrom};

// Writes a number in decimal digits from a position on: those in front of the last, where there are any, and the last. Answers where they end.
// Over buffer and position, and no printer: lent at each digit, it would have its length in memory, and each digit would wait for the one before.
#[tactic(auto, using(crate::proofs::DecimalLaws::digits_in_front))]
pub(crate) fn put_digits(out: &mut [u8], at: usize, n: u64) -> usize
    requires { at + length (decimal n) ≤ length out.old }
    ensures { PutFrom out.old at (decimal n) out.new result }
{
    if n < 10 {
        out[at] = b'0' + n as u8;
        return at + 1;
    }
    let last = put_digits(out, at, n / 10);
    out[last] = b'0' + (n % 10) as u8;
    last + 1
}
