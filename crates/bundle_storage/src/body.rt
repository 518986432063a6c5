// How a body stores its symbols, one at a time, and whether bytes are a body. No entry points: each asks that the place lies inside.
ghost use Rattle.std.specs.Prelude.{◌≡◌, ◌&&◌, List, ℕ, suc, ◌+◌, ◌*◌, ◌<◌, ◌≤◌, ltb, eqb, length, drop};
ghost use Rattle.bundle_storage.specs.Blocks.{most_blocks};
ghost use Rattle.bundle_storage.specs.Bytes.{Bytes, two_at};
ghost use Rattle.bundle_storage.specs.Rising.{rises};
ghost use Rattle.bundle_storage.specs.Storage.{stored, list_at, body_size, body_good, symbol_in, words_at, cursor_at, Placed};

use crate::bytes::{put_two, two_at};

// The symbol of block b into its body, of whose overflow list done entries are written: 65536 is listed, and its word is 00 00.
pub fn store(body: &mut [u8], count: usize, done: usize, b: usize, symbol: u32)
    requires { (2 * done + 1 < length body.old) × (2 * count + 2 * b + 1 < length body.old) × (b < 65536)
        × (symbol < 65537) }
    ensures { body.new ≡ stored 0 count done b symbol body.old }
{
    if symbol == 65536 {
        put_two(body, 2 * done, b);
        put_two(body, 2 * count + 2 * b, 0);
        return;
    }
    put_two(body, 2 * count + 2 * b, symbol as usize);
}

// The list and the words.
#[tactic(auto, unfolding(crate::specs::Storage::body_size))]
pub fn body_size(blocks: usize, count: usize) -> usize
    requires { (blocks < 65536) × (count < 65536) }
    ensures { result ≡ body_size blocks count }
{
    2 * count + 2 * blocks
}

// Where the words of the body that begins at an index begin.
#[tactic(auto, unfolding(crate::specs::Storage::words_at))]
pub fn words_at(at: usize, count: usize) -> usize
    requires { (at < 4294967296) × (count < 65536) }
    ensures { result ≡ words_at at count }
{
    at + 2 * count
}

// Whether the next entry of an overflow list, which ends where the words begin, is block b.
fn is_next(bytes: &[u8], words: usize, cursor: usize, b: usize) -> bool
    requires { words < length bytes.now }
    ensures { result ≡ ltb cursor words && eqb (two_at bytes.now cursor) b }
{
    if words <= cursor {
        return false;
    }
    two_at(bytes, cursor) == b
}

// The symbol of block b: 65536 where it is listed, else its word.
pub fn symbol_in(bytes: &[u8], words: usize, cursor: usize, b: usize) -> u32
    requires { (at : ℕ) × (B : ℕ) × (c : ℕ) × Placed at B c bytes.now b words cursor }
    ensures { (at B c : ℕ) → Placed at B c bytes.now b words cursor
        → result ≡ symbol_in c (drop at bytes.now) b }
{
    if is_next(bytes, words, cursor, b) {
        return 65536;
    }
    two_at(bytes, words + 2 * b) as u32
}

// The cursor of the block behind the one that has this symbol: only a listed symbol is 65536.
pub fn cursor_after(cursor: usize, symbol: u32) -> usize
    requires { cursor < 4294967296 }
    ensures { (at B c b words : ℕ) (s : List ℕ) → Bytes s → Placed at B c s b words cursor
        → symbol ≡ symbol_in c (drop at s) b → result ≡ cursor_at at c s (suc b) }
{
    if symbol == 65536 {
        return cursor + 2;
    }
    cursor
}

// Whether a body's overflow list rises strictly, each entry below the limit.
fn list_rises(list: &[u8], limit: usize, count: usize) -> bool
    requires { 2 * count ≤ length list.now }
    ensures { result ≡ rises limit count (list_at list.now) }
{
    let mut low = 0;
    for j in 0..count {
        let here = two_at(list, 2 * j);
        if here < low {
            return false;
        }
        if limit <= here {
            return false;
        }
        low = here + 1;
    }
    true
}

// Whether a good body stands at the front.
#[tactic(auto, unfolding(crate::specs::Storage::body_good, crate::specs::Storage::body_size, crate::specs::Blocks::most_blocks))]
pub fn body_good(bytes: &[u8], blocks: usize, count: usize) -> bool
    requires { (blocks ≤ most_blocks) × (count < 65536) }
    ensures { result ≡ body_good blocks count bytes.now }
{
    if bytes.len() < 2 * count + 2 * blocks {
        return false;
    }
    list_rises(bytes, blocks, count)
}
