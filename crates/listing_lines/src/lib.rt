// No entry points: the lines of the listing as text. Each function puts a line into lent bytes from an index on and answers where it ends; it asks
// that there is room for the line's longest form.
#![tactic(auto)]

mod pieces;

ghost use Rattle.std.specs.Prelude.{[], ◌+◌, ◌≤◌, length};
ghost use Rattle.answers.specs.Refusals.{the_result, refused};
ghost use Rattle.listing_lines.specs.Lines.{header_line, entry_line, last_line};
ghost use Rattle.listing_lines.specs.Puts.{Puts};

use crate::pieces::{put_number, put_text};
use answers::Refusal;

#[tactic(auto, using(crate::proofs::Putting::putting_six), unfolding(crate::specs::Lines::header_line))]
pub fn put_header_line(
    k: usize,
    n: usize,
    bytes: usize,
    held: usize,
    blocks: usize,
    out: &mut [u8],
    at: usize,
) -> usize
    requires { at + 128 ≤ length out.old }
    ensures { Puts (header_line k n bytes held blocks) 128 at out.old result out.new }
{
    let mut end = put_number(b"k ", k, out, at);
    end = put_number(b" n ", n, out, end);
    end = put_number(b" length ", bytes, out, end);
    end = put_number(b" held ", held, out, end);
    end = put_number(b" blocks ", blocks, out, end);
    put_text(b"\n", out, end)
}

#[tactic(auto, using(crate::proofs::Putting::putting), unfolding(crate::specs::Lines::entry_line))]
pub fn put_entry_line(
    position: usize,
    offset: usize,
    count: usize,
    out: &mut [u8],
    at: usize,
) -> usize
    requires { at + 63 ≤ length out.old }
    ensures { Puts (entry_line position offset count) 63 at out.old result out.new }
{
    let mut end = put_number(b"", position, out, at);
    end = put_number(b" ", offset, out, end);
    end = put_number(b" ", count, out, end);
    put_text(b"\n", out, end)
}

#[tactic(auto, using(crate::proofs::Putting::putting), unfolding(crate::specs::Lines::last_line))]
pub fn put_ok(out: &mut [u8], at: usize) -> usize
    requires { at + 3 ≤ length out.old }
    ensures { Puts (last_line (the_result [])) 3 at out.old result out.new }
{
    put_text(b"OK\n", out, at)
}

#[tactic(auto, using(crate::proofs::Putting::putting), unfolding(crate::specs::Lines::last_line))]
pub fn put_refused(refusal: Refusal, out: &mut [u8], at: usize) -> usize
    requires { at + 50 ≤ length out.old }
    ensures { Puts (last_line (refused refusal)) 50 at out.old result out.new }
{
    let number = refusal.number() as usize;
    let mut end = put_number(b"REFUSED ", number, out, at);
    end = put_number(b" ", refusal.place(), out, end);
    put_text(b"\n", out, end)
}
