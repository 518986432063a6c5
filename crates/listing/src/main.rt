// Lists the bundle that comes on standard input. All that is decided stands in `listing_text`; here bytes are read and written. Reads and writes
// go by parts of the buffers themselves, because the program may take 65,536 bytes in all and a copy would add to its stack.
#![tactic(auto)]

ghost use Rattle.std.specs.Prelude.{ℕ, ◌≤◌, length, take};
ghost use Rattle.std.specs.Io.KnownBytes.{Appends, Consumes};

use listing_text::list;
use std::io::{Read, Write};

// Reads until there is no room, the input ends or a read fails; what came is the input, at the front of the room.
fn read_input<R: Read>(from: &mut R, input: &mut [u8]) -> usize
    ensures in_bounds { result ≤ length input.new }
    ensures bytes { Consumes (R.remaining from.old) (R.remaining from.new) (take result input.new) }
{
    let mut done = 0;
    while done < input.len() {
        match from.read(&mut input[done..]) {
            Ok(0) | Err(_) => break,
            Ok(more) => done += more,
        }
    }
    done
}

// Writes until all is written or a write takes nothing or fails; what was written is a front of the text.
fn write_output<W: Write>(to: &mut W, text: &[u8])
    ensures { (n : ℕ) × Appends (W.contents to.old) (W.contents to.new) (take n text.now) }
{
    let mut done = 0;
    while done < text.len() {
        match to.write(&text[done..]) {
            Ok(0) | Err(_) => break,
            Ok(more) => done += more,
        }
    }
}

// One byte more than the program takes tells an input that is too long; 8 * 256 numbers are the working space of the largest n it serves.
fn main(rt: HostRuntime) {
    let mut input = [0u8; 24577];
    let mut text = [0u8; 16384];
    let mut work = [0u32; 2048];
    let got = read_input(&mut rt.stdin(), &mut input);
    let end = list(&input[0..got], &mut text, &mut work);
    write_output(&mut rt.stdout(), &text[0..end]);
}
