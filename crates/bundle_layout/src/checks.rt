// The tests of a bundle's layout, in document 01's order. They write nothing. No entry points: most ask that what they read is there, and what the
// crates above need of them stands in `inner`.
ghost use Rattle.std.specs.Prelude.{◌≡◌, ◌+◌, ◌<◌, ◌≤◌, length};
ghost use Rattle.answers.specs.Refusals.{told_outcome};
ghost use Rattle.bundle_storage.specs.Blocks.{most_blocks};
ghost use Rattle.bundle_layout.specs.Shape.{bad_bundle_shape};
ghost use Rattle.bundle_layout.specs.Fields.{n_in, held_in, blocks_in, position_in, entry_at};
ghost use Rattle.bundle_layout.specs.Layout.{bad_front, start_of, bad_entry, rest_good, layout_checks};
ghost use Rattle.bundle_storage.specs.Rising.{least};
ghost use Rattle.bundle_layout.specs.Shadows.{header_size, entry_size};

use crate::inner::{blocks, count_in, held_in, k_in, length_in, n_in, offset_in, position_in};
use answers::Refusal;
use bundle_storage::{body_good, body_size, two_at};
use limits::bad_shape;

const LONGEST_FILE: usize = 1048576;

const MOST_BLOCKS: usize = 65535;

fn bad_front(bundle: &[u8]) -> bool
    ensures { result ≡ bad_front bundle.now }
{
    if bundle.len() < 16 {
        return true;
    }
    !bundle.starts_with(b"FNTB") || two_at(bundle, 14) != 0
}

// k = 0 is refused before B is worked out.
pub fn bad_bundle_shape(k: usize, n: usize, length: usize) -> bool
    ensures { result ≡ bad_bundle_shape k n length }
{
    if bad_shape(k, n) {
        return true;
    }
    if LONGEST_FILE < length {
        return true;
    }
    MOST_BLOCKS < blocks(k, length)
}

// Whether entry t is bad: at is where its body has to begin, low the least that its position may be.
#[tactic(auto, unfolding(crate::specs::Layout::bad_entry, bundle_storage::specs::Rising::out_of_order))]
fn bad_entry(bundle: &[u8], n: usize, blocks: usize, t: usize, low: usize, at: usize) -> bool
    requires inside { (entry_at t + entry_size ≤ length bundle.now) × (at ≤ length bundle.now) }
    requires header { (n ≡ n_in bundle.now) × (blocks ≡ blocks_in bundle.now) × (blocks ≤ most_blocks) }
    requires reached { (low ≡ least (position_in bundle.now) t) × (at ≡ start_of bundle.now t) }
    ensures { result ≡ bad_entry bundle.now t }
{
    let position = position_in(bundle, t);
    position < low
        || n <= position
        || offset_in(bundle, t) != at
        || !body_good(&bundle[at..], blocks, count_in(bundle, t))
}

// The table, the bodies and the bundle's end.
fn rest_good(bundle: &[u8], n: usize, held: usize, blocks: usize) -> bool
    requires inside { (header_size ≤ length bundle.now) × (n ≡ n_in bundle.now) × (held ≡ held_in bundle.now)
        × (held < 65536) }
    requires counted { (blocks ≡ blocks_in bundle.now) × (blocks ≤ most_blocks) }
    ensures { result ≡ rest_good bundle.now }
{
    let mut at = 16 + 8 * held;
    if bundle.len() < at {
        return false;
    }
    let mut low = 0;
    for t in 0..held {
        if bad_entry(bundle, n, blocks, t, low, at) {
            return false;
        }
        low = position_in(bundle, t) + 1;
        at += body_size(blocks, count_in(bundle, t));
    }
    at == bundle.len()
}

#[tactic(auto, using(crate::proofs::Fronts::layout_tests), unfolding(crate::specs::Layout::layout_checks))]
pub fn layout_checks(bundle: &[u8]) -> Result<(), Refusal>
    ensures { told_outcome result ≡ layout_checks bundle.now }
{
    if bad_front(bundle) {
        return Err(Refusal::Form);
    }
    let k = k_in(bundle);
    let n = n_in(bundle);
    let length = length_in(bundle);
    if bad_bundle_shape(k, n, length) {
        return Err(Refusal::Shape);
    }
    if !rest_good(bundle, n, held_in(bundle), blocks(k, length)) {
        return Err(Refusal::Form);
    }
    Ok(())
}
