// What is worked out once for a bundle, before its first block. Of the 8N cells of working space the decoder has the first 4N, 1 / (N·K·M) and the
// powers of ψ among them; behind them stand the weights M(x), and for each held shadow where its words begin, its cursor and its position.
// No entry points: the callers have made the checks.
ghost use Rattle.std.specs.Prelude.{◌≡◌, ◌*◌, ◌<◌, ◌≤◌, length};
ghost use Rattle.field.specs.Size.{size_of};
ghost use Rattle.bundle_layout.specs.Fields.{k_in, n_in, held_in};
ghost use Rattle.bundle_layout.specs.Rooms.{bundle_work};
ghost use Rattle.bundle_gather.specs.Gathering.{marks_in, missing_in, with_shadow, with_weights, Shadows, Laid};

use bundle_layout::inner::Layout;
use bundle_storage::{known_as_bytes, words_at};
use cells::clear;
use decode_prepare::prepare;
use field::size;

// Shadow t; size is N.
fn lay_shadow(bundle: Layout<'_>, size: usize, t: usize, cells: &mut [u32])
    requires { (t < held_in bundle.bytes.now) × (t < size) × (length cells.old ≡ 8 * size) }
    ensures { cells.new ≡ with_shadow bundle.entry.bytes.now size t cells.old }
{
    known_as_bytes(bundle.bytes);
    let entry = bundle.entry(t);
    cells[5 * size + t] = words_at(entry.offset, entry.count) as u32;
    cells[6 * size + t] = entry.offset as u32;
    cells[7 * size + t] = entry.position as u32;
}

fn lay_shadows(bundle: Layout<'_>, size: usize, cells: &mut [u32])
    requires { (size ≡ size_of (n_in bundle.bytes.now)) × (length cells.old ≡ 8 * size) }
    ensures { Shadows bundle.entry.bytes.now (held_in bundle.entry.bytes.now) cells.new }
{
    for t in 0..bundle.held() {
        lay_shadow(bundle, size, t, cells);
    }
}

fn mark_held(bundle: Layout<'_>, marks: &mut [u32])
    requires { length marks.old ≡ size_of (n_in bundle.bytes.now) }
    ensures { marks.new ≡ marks_in bundle.entry.bytes.now (held_in bundle.entry.bytes.now) }
{
    clear(marks);
    for t in 0..bundle.held() {
        marks[bundle.entry(t).position] = 1;
    }
}

// The weights, which the preparation leaves in front, to where no block changes them.
fn keep_weights(size: usize, cells: &mut [u32])
    requires { length cells.old ≡ 8 * size }
    ensures { cells.new ≡ with_weights size cells.old }
{
    cells.copy_within(0..size, 4 * size);
}

// Every cursor at the front of its list; what is returned is how many positions are missing.
pub fn start(bundle: Layout<'_>, cells: &mut [u32]) -> usize
    requires { (k_in bundle.bytes.now ≤ held_in bundle.bytes.now) × (length cells.old ≡ bundle_work (n_in bundle.bytes.now)) }
    ensures { (result ≡ length (missing_in bundle.entry.bytes.now)) × Laid bundle.entry.bytes.now 0 cells.new }
{
    let n = bundle.n();
    let size = size(n);
    let marks = 2 * size;
    let powers = 3 * size;
    let weights = 4 * size;
    lay_shadows(bundle, size, cells);
    mark_held(bundle, &mut cells[marks..powers]);
    let missing = prepare(bundle.k(), n, &mut cells[0..weights]);
    keep_weights(size, cells);
    missing
}
