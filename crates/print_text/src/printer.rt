// A printer: words and decimal numbers, one behind the other in a buffer.
ghost use Rattle.std.specs.Prelude.{◌≡◌, [], ◌∷◌, ◌++◌, ◌+◌, ◌≤◌, length};
ghost use Rattle.print_text.specs.Decimal.{decimal};

use crate::digits::put_digits;

// A buffer whose first `len` bytes are printed.
#[derive(Drop)]
pub struct Printer<'a> {
    out: &'a mut [u8],
    len: usize,
    ghost in_buffer: { len ≤ length out.now },
}

impl<'a> Printer<'a> {
    ghost use Rattle.print_text.specs.Line.{space, Blank, Behind, text_of, rest_of, Put};

    // Nothing is printed.
    pub fn new(out: &'a mut [u8]) -> Printer<'a>
        ensures { Blank out.entry result }
    {
        Printer { out, len: 0 }
    }

    // The first `at` bytes are taken for what is printed.
    pub fn behind(out: &'a mut [u8], at: usize) -> Printer<'a>
        requires { at ≤ length out.old }
        ensures { Behind out.entry at result }
    {
        Printer { out, len: at }
    }

    // Prints a byte.
    pub fn put_byte(&mut self, byte: u8)
        requires { 1 ≤ length (rest_of self.old) }
        ensures { Put self.old (byte ∷ []) self.new }
    {
        self.out[self.len] = byte;
        self.len += 1;
    }

    // Prints a word.
    pub fn put_word(&mut self, word: &[u8])
        requires { length word.now ≤ length (rest_of self.old) }
        ensures { Put self.old word.now self.new }
    {
        let end = self.len + word.len();
        self.out[self.len..end].copy_from_slice(word);
        self.len = end;
    }

    // Prints a number in decimal digits. By hand, and not by `write!`: std says what `write!` has written only if it answers `Ok`, and never that
    // it does.
    pub fn put_decimal(&mut self, n: u64)
        requires { length (decimal n) ≤ length (rest_of self.old) }
        ensures { Put self.old (decimal n) self.new }
    {
        self.len = put_digits(self.out, self.len, n);
    }

    // Prints a space and a number.
    pub fn put_field(&mut self, n: u64)
        requires { 1 + length (decimal n) ≤ length (rest_of self.old) }
        ensures { Put self.old (space ∷ decimal n) self.new }
    {
        self.put_byte(b' ');
        self.put_decimal(n);
    }

    // Ends: the buffer is what is printed, and behind it what stood there. Answers how many bytes are printed.
    pub fn finish(self) -> usize
        ensures whole { self.exit.0.now ≡ text_of self.entry ++ rest_of self.entry }
        ensures printed { result ≡ length (text_of self.entry) }
    {
        let Printer { out: _, len } = self;
        len
    }

    // The part of the buffer that is printed.
    pub(crate) fn into_text(self) -> &'a mut [u8]
        ensures { result.now ≡ text_of self.entry }
    {
        let Printer { out, len } = self;
        &mut out[..len]
    }
}
