// Words and numbers as text, put into lent bytes from an index on. No entry points and for this crate alone: they ask that there is room.
ghost use Rattle.std.specs.Prelude.{◌++◌, ◌+◌, ◌≤◌, length};
ghost use Rattle.listing_lines.specs.Puts.{Puts};
ghost use Rattle.listing_lines.specs.Text.{decimal};

use cells::copy;

// Where the text ends is the answer.
#[tactic(auto, using(crate::proofs::Putting::puts_behind))]
pub fn put_text(text: &[u8], out: &mut [u8], at: usize) -> usize
    requires { at + length text.now ≤ length out.old }
    ensures { Puts text.now (length text.now) at out.old result out.new }
{
    copy(text, &mut out[at..]);
    at + text.len()
}

#[tactic(auto, using(crate::proofs::Decimals::decimal_counted))]
fn put_decimal(n: usize, out: &mut [u8], at: usize) -> usize
    requires { at + 20 ≤ length out.old }
    ensures { Puts (decimal n) 20 at out.old result out.new }
{
    let mut digits = [0u8; 20];
    let count = io::decimal(n as u64, &mut digits);
    put_text(&digits[..count], out, at)
}

// A word, and a number behind it.
#[tactic(auto, using(crate::proofs::Putting::putting))]
pub fn put_number(word: &[u8], n: usize, out: &mut [u8], at: usize) -> usize
    requires { at + (length word.now + 20) ≤ length out.old }
    ensures { Puts (word.now ++ decimal n) (length word.now + 20) at
        out.old result out.new }
{
    let next = put_text(word, out, at);
    put_decimal(n, out, next)
}
