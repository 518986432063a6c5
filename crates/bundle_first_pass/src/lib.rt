// No entry points: the first pass of writing a bundle, which is the only one where no symbol overflows. It counts the overflows, of which the table
// needs the counts, and until one is met it writes the bodies as they lie where there is none. What it writes lies inside the bundle in any case.
// The caller has made the checks.
#![tactic(auto)]

ghost use Rattle.std.specs.Prelude.{◌≡◌, suc, ◌+◌, ◌*◌, ◌<◌, ◌≤◌, length};
ghost use Rattle.field.specs.Size.{size_of};
ghost use Rattle.bundle_layout.specs.Blocks.{blocks_of};
ghost use Rattle.bundle_storage.specs.Storage.{stored, body_size};
ghost use Rattle.bundle_file.specs.File.{file_bundle};
ghost use Rattle.bundle_file.specs.Counts.{Coded, Counted};
ghost use Rattle.bundle_first_pass.specs.Plain.{Plainly, Plain};

use bundle_file::{Source, clear_counts, code_front, none_counted, tally};
use bundle_storage::{body_size, store};

// The symbol of block b into the body that begins at an index.
pub fn put_at(
    out: &mut [u8],
    at: usize,
    blocks: usize,
    count: usize,
    done: usize,
    b: usize,
    symbol: u32,
)
    requires { (at + body_size blocks count ≤ length out.old) × (blocks < 65536) × (count < 65536) × (b < blocks)
        × (done ≤ count) × (symbol < 65537) }
    ensures { out.new ≡ stored at count done b symbol out.old }
{
    let end = at + body_size(blocks, count);
    store(&mut out[at..end], count, done, b, symbol);
}

// The symbols of block b into bodies that list nothing.
fn store_plain(source: Source<'_>, b: usize, out: &mut [u8], cells: &[u32])
    requires begun { (b < blocks_of source.k (length source.file.now))
        × Plain source.k source.n source.file.now b out.old × (source.n ≤ length cells.now) }
    requires coded { Coded source.k source.n source.file.now b cells.now }
    ensures plainly { Plainly source.entry.k source.entry.n source.entry.file.now out.old out.new }
    ensures plain { Plain source.entry.k source.entry.n source.entry.file.now (suc b) out.new }
{
    let blocks = source.blocks();
    let size = body_size(blocks, 0);
    let mut at = 16 + 8 * source.n;
    for symbol in &cells[0..source.n] {
        put_at(out, at, blocks, 0, 0, b, *symbol);
        at += size;
    }
}

// The same, unless a symbol before them overflowed: then the bodies have to be written anew, and storing is only time.
fn store_if_none(source: Source<'_>, b: usize, out: &mut [u8], cells: &[u32])
    requires begun { (b < blocks_of source.k (length source.file.now))
        × Plain source.k source.n source.file.now b out.old × Counted source.k source.n source.file.now b cells.now }
    requires coded { Coded source.k source.n source.file.now b cells.now }
    ensures plainly { Plainly source.entry.k source.entry.n source.entry.file.now out.old out.new }
    ensures plain { Plain source.entry.k source.entry.n source.entry.file.now (suc b) out.new }
{
    if none_counted(source.n, source.size(), cells) {
        store_plain(source, b, out, cells);
    }
}

fn pass_block(source: Source<'_>, b: usize, out: &mut [u8], cells: &mut [u32])
    requires { (b < blocks_of source.k (length source.file.now))
        × Plain source.k source.n source.file.now b out.old × Counted source.k source.n source.file.now b cells.old }
    ensures plainly { Plainly source.entry.k source.entry.n source.entry.file.now out.old out.new }
    ensures plain { Plain source.entry.k source.entry.n source.entry.file.now (suc b) out.new }
    ensures counted { Counted source.entry.k source.entry.n source.entry.file.now (suc b) cells.new }
{
    code_front(source, b, cells);
    store_if_none(source, b, out, cells);
    tally(source.n, source.size(), cells);
}

// The counts of all blocks, and their symbols where they belong if all counts are 0.
pub fn write_plain(source: Source<'_>, out: &mut [u8], cells: &mut [u32])
    requires { (length (file_bundle source.k source.n source.file.now) ≤ length out.old)
        × (length cells.old ≡ 2 * size_of source.n) }
    ensures plainly { Plainly source.entry.k source.entry.n source.entry.file.now out.old out.new }
    ensures plain { Plain source.entry.k source.entry.n source.entry.file.now
        (blocks_of source.entry.k (length source.entry.file.now)) out.new }
    ensures counted { Counted source.entry.k source.entry.n source.entry.file.now
        (blocks_of source.entry.k (length source.entry.file.now)) cells.new }
{
    clear_counts(source.n, cells);
    for b in 0..source.blocks() {
        pass_block(source, b, out, cells);
    }
}
