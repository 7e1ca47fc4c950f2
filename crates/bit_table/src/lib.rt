// Bits in words of 64: bit q is bit q mod 64 of word q / 64.
#![tactic(auto)]

ghost use Rattle.std.specs.Prelude.{◌≡◌, ◌||◌, ℕ, ◌*◌, ◌<◌, length, eqb, MatchOption};
ghost use Rattle.std.specs.Bool.{xor};
ghost use Rattle.bit_table.specs.Bits.{word_bits, bit_of, WordsAhead, WordsClear, NextWord, BitsAhead, BitsClear, NextBit};

// The bits of a word.
const WORD_BITS: usize = 64;

// Sets bit q.
pub fn set_bit(words: &mut [u64], q: usize)
    requires { q < word_bits * length words.old }
    ensures { (k : ℕ) → bit_of words.new k ≡ (bit_of words.old k || eqb k q) }
{
    words[q / WORD_BITS] |= 1 << (q % WORD_BITS);
}

// Turns bit q over.
pub fn flip_bit(words: &mut [u64], q: usize)
    requires { q < word_bits * length words.old }
    ensures { (k : ℕ) → bit_of words.new k ≡ xor (bit_of words.old k) (eqb k q) }
{
    words[q / WORD_BITS] ^= 1 << (q % WORD_BITS);
}

// The first word from word `from` on that has a bit set, `None` where there is none in front of word `end`.
fn next_word(words: &[u64], from: usize, end: usize) -> Option<usize>
    requires { WordsAhead words.now from end }
    ensures { MatchOption result (WordsClear words.now from end) (NextWord words.now from end) }
{
    for w in from..end {
        if words[w] != 0 {
            return Some(w);
        }
    }
    None
}

// The first bit from `from` on that is set, `None` where there is none in front of bit `end`. No `for`: a step goes to the next word.
pub fn next_bit(words: &[u64], from: usize, end: usize) -> Option<usize>
    requires { BitsAhead words.now from end }
    ensures { MatchOption result (BitsClear words.now from end) (NextBit words.now from end) }
{
    let mut q = from;
    while q < end {
        let left = words[q / WORD_BITS] >> (q % WORD_BITS);
        if left != 0 {
            let found = q + left.trailing_zeros() as usize;
            return if found < end { Some(found) } else { None };
        }
        let stop = (end - 1) / WORD_BITS + 1;
        match next_word(words, q / WORD_BITS + 1, stop) {
            Some(word) => q = WORD_BITS * word,
            None => return None,
        }
    }
    None
}
