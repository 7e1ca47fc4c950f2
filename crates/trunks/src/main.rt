// The cable crew's program: reads a sheet from standard input and prints the trunk number of each link, or the sheet's refusal.
#![tactic(auto)]

use print_trunks::{MOST_OUTPUT, trunk_lines};

const STDIN: i32 = 0;

const STDOUT: i32 = 1;

// Bytes of the input behind these are not read.
const MOST_INPUT: usize = 32768;

// Reads until the buffer is full or the input ends, and prints what the bytes read give. By the kit's `io`: std's readers fill a buffer only
// where the input is long enough, or one on the heap. `report` does the same with its own lines: a crate for both would be longer than either.
fn main() {
    let mut input = [0u8; MOST_INPUT];
    let read = io::read_full(STDIN, &mut input);
    let mut out = [0u8; MOST_OUTPUT];
    let lines = trunk_lines(&mut out, &input[..read]);
    io::write_all(STDOUT, lines);
}
