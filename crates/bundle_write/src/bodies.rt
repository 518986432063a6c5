// Writing a bundle: the first pass over the blocks counts the overflows, of which the table needs the counts, and writes the bodies as they lie
// where there is none; if there is one, a second pass writes them anew. No entry points: the entry point has made the checks.
ghost use Rattle.std.specs.Prelude.{◌≡◌, suc, ◌+◌, ◌*◌, ◌<◌, ◌≤◌, length, replicate};
ghost use Rattle.answers.specs.Leaves.{written};
ghost use Rattle.field.specs.Size.{size_of};
ghost use Rattle.bundle_layout.specs.Blocks.{blocks_of};
ghost use Rattle.bundle_layout.specs.Fields.{entry_at, count_in, offset_in};
ghost use Rattle.bundle_layout.specs.Shadows.{entry_size};
ghost use Rattle.bundle_storage.specs.Storage.{stored, body_size};
ghost use Rattle.bundle_file.specs.File.{file_bundle};
ghost use Rattle.bundle_layout.specs.Rooms.{write_out, bundle_work};
ghost use Rattle.bundle_file.specs.Counts.{Coded, Counted};
ghost use Rattle.bundle_front.specs.Onward.{Onward};
ghost use Rattle.bundle_write.specs.Writing.{Progress};

use bundle_file::{Source, clear_counts, code_front, none_counted, tally};
use bundle_first_pass::{put_at, write_plain};
use bundle_front::write_front;
use bundle_layout::inner::{count_in, offset_in};
use cells::clear;

// The symbol of block b into the body of shadow i, which the table has placed.
fn put_symbol(out: &mut [u8], i: usize, blocks: usize, b: usize, done: usize, symbol: u32)
    requires inside { (entry_at i + entry_size ≤ length out.old)
        × (offset_in out.old i + body_size blocks (count_in out.old i) ≤ length out.old) × (blocks < 65536) }
    requires next { (b < blocks) × (done ≤ count_in out.old i) × (symbol < 65537) }
    ensures { out.new
        ≡ stored (offset_in out.old i) (count_in out.old i) done b symbol out.old }
{
    let count = count_in(out, i);
    let at = offset_in(out, i);
    put_at(out, at, blocks, count, done, b, symbol);
}

// The symbols of block b into the bodies.
fn store_block(source: Source<'_>, b: usize, out: &mut [u8], cells: &[u32])
    requires begun { (b < blocks_of source.k (length source.file.now))
        × Progress source.k source.n source.file.now b out.old }
    requires counted { Counted source.k source.n source.file.now b cells.now }
    requires coded { Coded source.k source.n source.file.now b cells.now }
    ensures onward { Onward (file_bundle source.entry.k source.entry.n source.entry.file.now) out.old out.new }
    ensures progress { Progress source.entry.k source.entry.n source.entry.file.now (suc b) out.new }
{
    let size = source.size();
    let blocks = source.blocks();
    for i in 0..source.n {
        put_symbol(out, i, blocks, b, cells[size + i] as usize, cells[i]);
    }
}

fn write_block(source: Source<'_>, b: usize, out: &mut [u8], cells: &mut [u32])
    requires { (b < blocks_of source.k (length source.file.now))
        × Progress source.k source.n source.file.now b out.old × Counted source.k source.n source.file.now b cells.old }
    ensures onward { Onward (file_bundle source.entry.k source.entry.n source.entry.file.now) out.old out.new }
    ensures progress { Progress source.entry.k source.entry.n source.entry.file.now (suc b) out.new }
    ensures counted { Counted source.entry.k source.entry.n source.entry.file.now (suc b) cells.new }
{
    code_front(source, b, cells);
    store_block(source, b, out, cells);
    tally(source.n, source.size(), cells);
}

// The bodies, block by block, where the table has placed them.
fn write_bodies(source: Source<'_>, out: &mut [u8], cells: &mut [u32])
    requires { Progress source.k source.n source.file.now 0 out.old × (length cells.old ≡ 2 * size_of source.n) }
    ensures { out.new ≡ written (file_bundle source.entry.k source.entry.n source.entry.file.now) out.old }
{
    clear_counts(source.n, cells);
    for b in 0..source.blocks() {
        write_block(source, b, out, cells);
    }
}

// The whole bundle with 2N cells.
fn write_within(source: Source<'_>, out: &mut [u8], cells: &mut [u32]) -> usize
    requires { (length (file_bundle source.k source.n source.file.now) ≤ length out.old)
        × (length cells.old ≡ 2 * size_of source.n) }
    ensures value { result ≡ length (file_bundle source.entry.k source.entry.n source.entry.file.now) }
    ensures out_after { out.new ≡ written (file_bundle source.entry.k source.entry.n source.entry.file.now) out.old }
{
    write_plain(source, out, cells);
    let length = write_front(source, out, cells);
    if none_counted(source.n, source.size(), cells) {
        return length;
    }
    write_bodies(source, out, cells);
    length
}

// The whole bundle at the output's front, and its length; cells is the stated working space.
#[tactic(auto, unfolding(bundle_layout::specs::Rooms::bundle_work))]
pub fn write_all(source: Source<'_>, out: &mut [u8], cells: &mut [u32]) -> usize
    requires { (write_out source.n (blocks_of source.k (length source.file.now)) ≤ length out.old)
        × (length cells.old ≡ bundle_work source.n) }
    ensures value { result ≡ length (file_bundle source.entry.k source.entry.n source.entry.file.now) }
    ensures out_after { out.new ≡ written (file_bundle source.entry.k source.entry.n source.entry.file.now) out.old }
    ensures cells_after { cells.new ≡ replicate (bundle_work source.entry.n) 0 }
{
    let size = source.size();
    let length = write_within(source, out, &mut cells[0..2 * size]);
    clear(cells);
    length
}
