// Replays a list of calls on the host library's functions: each line of standard input holds a call and its answer (the list's head says how), and what the
// port answers is compared with it. Prints for each function how many lines agreed, and each line that differs or is no call.
#![tactic(auto)]

ghost use Rattle.std.specs.Prelude.{◌≡◌, ◌≤◌, length};

mod call;
mod count;
mod encoders;
mod error;
mod function;
mod kinds;
mod line;
mod memory;
mod numbers;
mod reads;
mod replay;
mod report;
mod row;
mod streams;
mod tally;
mod word;

use crate::replay::replay;
use crate::report::print_total;
use std::io::Read;

// The list must be shorter.
const LIMIT: usize = 1_048_576;

// Memory for the list. By itself, since a proof that sees a literal of a mebibyte runs out of stack.
fn space() -> [u8; LIMIT]
    ensures { LIMIT ≡ length result }
{
    [0; LIMIT]
}

// Reads the list to the front of the buffer, and answers how many bytes it is. By hand: `read_to_end` reads into a Vec, whose memory can run out. A read that
// fails ends the list.
fn read_list<R: Read>(reader: &mut R, buf: &mut [u8]) -> usize
    ensures { result ≤ length buf.new }
{
    let mut len = 0;
    while len < buf.len() {
        let more = reader.read(&mut buf[len..]).unwrap_or(0);
        if more == 0 {
            break;
        }
        len += more;
    }
    len
}

fn main(rt: HostRuntime) {
    let mut list = space();
    let len = read_list(&mut rt.stdin(), &mut list);
    if len == LIMIT {
        let _ = println!(rt; "too long");
        return;
    }
    let tally = replay(&rt, &list[..len]);
    print_total(&rt, &tally);
}
