// Guesses the alphabet of standard input, at most 16,384 bytes, packs it, and prints the alphabet's display name, the input's byte count in decimal and the
// packed bytes in lowercase hexadecimal, a line each. Its memory is fixed, so that no input can exhaust it.
#![tactic(auto)]

mod input;
mod put;

use std::io::Write;

// Room for one byte more than is packed.
const ROOM: usize = 16385;

// The most bytes that are printed: three lines of at most 8, 21 and 32,769 bytes.
const MOST: usize = 32798;

fn main(rt: HostRuntime) {
    let mut text = [0; ROOM];
    let read = input::read_input(&mut rt.stdin(), &mut text);
    let mut out = [0; MOST];
    let n = put::put_output(read, &text, &mut out);
    // the installed command, which hands the output on, tells by its status where it cannot be written
    let _ = rt.stdout().write_all(&out[..n]);
}
