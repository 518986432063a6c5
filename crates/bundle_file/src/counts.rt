// The overflow counts, of which the table needs those of the whole file: of 2N cells the first N hold a block's code word, the next N the counts.
// No entry points: the callers have made the checks.
ghost use Rattle.std.specs.Prelude.{◌≡◌, ℕ, ◌+◌, ◌*◌, ◌<◌, ◌≤◌, length, get_or};
ghost use Rattle.field.specs.Size.{size_of};
ghost use Rattle.bundle_layout.specs.Blocks.{blocks_of};
ghost use Rattle.bundle_file.specs.Counts.{tallied, none_counted, Coded, Counted};

use crate::source::Source;
use crate::words::code_block;
use cells::clear;
use field::size;

#[tactic(auto, unfolding(crate::specs::Counts::tallied))]
fn tally_one(count: u32, symbol: u32) -> u32
    requires { count < 65536 }
    ensures { result ≡ tallied count symbol }
{
    if symbol == 65536 {
        return count + 1;
    }
    count
}

// One more for each shadow whose symbol is 65536.
pub fn tally(n: usize, size: usize, cells: &mut [u32])
    requires { (n ≤ size) × (length cells.old ≡ 2 * size)
        × ((i : ℕ) → i < n → get_or cells.old (size + i) 0 < 65536) }
    ensures { (i : ℕ) → i < n
        → get_or cells.new (size + i) 0
        ≡ tallied (get_or cells.old (size + i) 0) (get_or cells.old i 0) }
{
    let (symbols, counts) = cells.split_at_mut(size);
    for (i, count) in counts[0..n].iter_mut().enumerate() {
        *count = tally_one(*count, symbols[i]);
    }
}

// Whether no shadow has an overflow.
pub fn none_counted(n: usize, size: usize, cells: &[u32]) -> bool
    requires { size + n ≤ length cells.now }
    ensures { result ≡ none_counted n size cells.now }
{
    cells[size..size + n].iter().all(|count| *count == 0)
}

pub fn clear_counts(n: usize, cells: &mut [u32])
    requires { (n ≤ size_of n) × (length cells.old ≡ 2 * size_of n) }
    ensures { (i : ℕ) → i < n → get_or cells.new (size_of n + i) 0 ≡ 0 }
{
    let size = size(n);
    clear(&mut cells[size..]);
}

// The code word of block b in front; the counts stay.
pub fn code_front(source: Source<'_>, b: usize, cells: &mut [u32])
    requires { (b < blocks_of source.k (length source.file.now)) × Counted source.k source.n source.file.now b cells.old }
    ensures coded { Coded source.entry.k source.entry.n source.entry.file.now b cells.new }
    ensures counted { Counted source.entry.k source.entry.n source.entry.file.now b cells.new }
{
    let size = source.size();
    code_block(source, b, &mut cells[0..size]);
}
