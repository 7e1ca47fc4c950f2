// The report program: reads a sheet from standard input and prints its answer or its refusal.
#![tactic(auto)]

use print_report::{MOST_OUTPUT, report_lines};

const STDIN: i32 = 0;

const STDOUT: i32 = 1;

// Bytes of the input behind these are not read.
const MOST_INPUT: usize = 32768;

// Reads until the buffer is full or the input ends, and prints what the bytes read give. By the kit's `io`: std's readers fill a buffer only
// where the input is long enough, or one on the heap. `trunks` does the same with its own lines: a crate for both would be longer than either.
fn main() {
    let mut input = [0u8; MOST_INPUT];
    let read = io::read_full(STDIN, &mut input);
    let mut out = [0u8; MOST_OUTPUT];
    let lines = report_lines(&mut out, &input[..read]);
    io::write_all(STDOUT, lines);
}
