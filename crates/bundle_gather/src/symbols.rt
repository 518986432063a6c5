// The held symbols of a block, each times the weight of its position, where decoding takes them. No entry points: the working space has been
// prepared.
ghost use Rattle.std.specs.Prelude.{◌≡◌, suc, ◌+◌, ◌*◌, ◌<◌, length, get_or};
ghost use Rattle.field.specs.Size.{size_of};
ghost use Rattle.bundle_layout.specs.Fields.{n_in, held_in, blocks_in};
ghost use Rattle.bundle_gather.specs.Gathering.{cursor_held, with_symbol, Fixed, Laid, Gathered};

use bundle_layout::inner::Layout;
use bundle_storage::{cursor_after, known_as_bytes, symbol_in};
use cells::clear;
use field::{product, size};

// What shadow t holds for block b, and its cursor on the next block; size is N.
fn gather_one(bundle: Layout<'_>, size: usize, b: usize, t: usize, cells: &mut [u32])
    requires held { (b < blocks_in bundle.bytes.now) × (t < held_in bundle.bytes.now) × (size ≡ size_of (n_in bundle.bytes.now)) }
    requires room { (length cells.old ≡ 8 * size) × (t < size) × (get_or cells.old (7 * size + t) 0 < size) }
    requires fixed { Fixed bundle.bytes.now cells.old
        × (get_or cells.old (6 * size + t) 0 ≡ cursor_held bundle.bytes.now b t) }
    ensures { cells.new ≡ with_symbol bundle.entry.bytes.now size b t cells.old }
{
    known_as_bytes(bundle.bytes);
    let words = cells[5 * size + t] as usize;
    let cursor = cells[6 * size + t] as usize;
    let place = cells[7 * size + t] as usize;
    let symbol = symbol_in(bundle.bytes, words, cursor, b);
    let value = product(symbol, cells[4 * size + place]);
    cells[place] = value;
    cells[6 * size + t] = cursor_after(cursor, symbol) as u32;
}

// The values of block b.
pub fn gather(bundle: Layout<'_>, b: usize, cells: &mut [u32])
    requires { (b < blocks_in bundle.bytes.now) × Laid bundle.bytes.now b cells.old }
    ensures { Laid bundle.entry.bytes.now (suc b) cells.new
        × Gathered bundle.entry.bytes.now b (held_in bundle.entry.bytes.now) cells.new }
{
    let size = size(bundle.n());
    clear(&mut cells[0..size]);
    for t in 0..bundle.held() {
        gather_one(bundle, size, b, t, cells);
    }
}
