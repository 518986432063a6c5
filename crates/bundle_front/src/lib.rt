// No entry points: the front of a file's bundle, which is its header and its table. The caller has made the checks.
#![tactic(auto)]

ghost use Rattle.std.specs.Prelude.{◌≡◌, ◌++◌, ◌+◌, ◌<◌, ◌≤◌, length};
ghost use Rattle.bundle_layout.specs.Blocks.{blocks_of};
ghost use Rattle.bundle_storage.specs.Bytes.{two, four, put};
ghost use Rattle.bundle_layout.specs.Fields.{entry_at};
ghost use Rattle.bundle_layout.specs.Shadows.{header_size, entry_size, header, first_body};
ghost use Rattle.bundle_file.specs.File.{file_bundle};
ghost use Rattle.bundle_file.specs.Counts.{Counted};
ghost use Rattle.bundle_front.specs.Onward.{Stand, Onward};

use bundle_file::Source;
use bundle_storage::{body_size, put_four, put_two};
use cells::copy;

#[tactic(auto, unfolding(bundle_layout::specs::Shadows::header_size))]
fn write_header(k: usize, n: usize, bytes: usize, out: &mut [u8])
    requires { (k < 65536) × (n < 65536) × (bytes < 4294967296) × (header_size ≤ length out.old) }
    ensures { out.new ≡ put (header k n bytes n) 0 out.old }
{
    copy(b"FNTB", out);
    put_two(out, 4, k);
    put_two(out, 6, n);
    put_four(out, 8, bytes);
    put_two(out, 12, n);
    put_two(out, 14, 0);
}

fn put_entry(out: &mut [u8], i: usize, count: usize, offset: usize)
    requires { (entry_at i + entry_size ≤ length out.old) × (i < 65536) × (count < 65536) × (offset < 4294967296) }
    ensures { out.new ≡ put (two i ++ (two count ++ four offset)) (entry_at i) out.old }
{
    let at = 16 + 8 * i;
    put_two(out, at, i);
    put_two(out, at + 2, count);
    put_four(out, at + 4, offset);
}

// The table, from the counts; where the last body ends is the bundle's length.
fn write_table(source: Source<'_>, out: &mut [u8], cells: &[u32]) -> usize
    requires { (length (file_bundle source.k source.n source.file.now) ≤ length out.old)
        × Counted source.k source.n source.file.now (blocks_of source.k (length source.file.now)) cells.now }
    ensures value { result ≡ length (file_bundle source.entry.k source.entry.n source.entry.file.now) }
    ensures onward { Onward (file_bundle source.entry.k source.entry.n source.entry.file.now) out.old out.new }
    ensures stand { Stand header_size (first_body source.entry.n)
        (file_bundle source.entry.k source.entry.n source.entry.file.now) out.new }
{
    let size = source.size();
    let blocks = source.blocks();
    let mut at = 16 + 8 * source.n;
    for (i, counted) in cells[size..size + source.n].iter().enumerate() {
        let count = *counted as usize;
        put_entry(out, i, count, at);
        at += body_size(blocks, count);
    }
    at
}

pub fn write_front(source: Source<'_>, out: &mut [u8], cells: &[u32]) -> usize
    requires { (length (file_bundle source.k source.n source.file.now) ≤ length out.old)
        × Counted source.k source.n source.file.now (blocks_of source.k (length source.file.now)) cells.now }
    ensures value { result ≡ length (file_bundle source.entry.k source.entry.n source.entry.file.now) }
    ensures onward { Onward (file_bundle source.entry.k source.entry.n source.entry.file.now) out.old out.new }
    ensures stand { Stand 0 (first_body source.entry.n)
        (file_bundle source.entry.k source.entry.n source.entry.file.now) out.new }
{
    write_header(source.k, source.n, source.file.len(), out);
    write_table(source, out, cells)
}
