// No entry points: a bundle whose layout is good, the fields of one that is not tested yet, B and SHAPE, for the entry points here and in the crates
// above. Those that read bytes which are not tested yet, and `Layout::entry`, ask that what they read is there.
ghost use Rattle.std.specs.Prelude.{◌≡◌, ◌+◌, ◌<◌, ◌≤◌, length};
ghost use Rattle.limits.specs.Shape.{longest};
ghost use Rattle.bundle_layout.specs.Blocks.{blocks_of};
ghost use Rattle.bundle_layout.specs.Shape.{longest_file};
ghost use Rattle.bundle_layout.specs.Fields.{k_in, n_in, length_in, held_in, entry_at, position_in, count_in, offset_in};
ghost use Rattle.bundle_layout.specs.Shadows.{header_size, entry_size};

pub use crate::checks::bad_bundle_shape;
pub use crate::layout::Layout;
use bundle_storage::{four_at, two_at};

// B.
#[tactic(auto, unfolding(crate::specs::Blocks::blocks_of, crate::specs::Shape::longest_file, limits::specs::Shape::longest))]
pub fn blocks(k: usize, length: usize) -> usize
    requires { (0 < k) × (k ≤ longest) × (length ≤ longest_file) }
    ensures { result ≡ blocks_of k length }
{
    (length + (2 * k - 1)) / (2 * k)
}

// The fields of the header.
#[tactic(auto, unfolding(crate::specs::Fields::k_in, crate::specs::Shadows::header_size))]
pub fn k_in(bundle: &[u8]) -> usize
    requires { header_size ≤ length bundle.now }
    ensures { (result ≡ k_in bundle.now) × (result < 65536) }
{
    two_at(bundle, 4)
}

#[tactic(auto, unfolding(crate::specs::Fields::n_in, crate::specs::Shadows::header_size))]
pub fn n_in(bundle: &[u8]) -> usize
    requires { header_size ≤ length bundle.now }
    ensures { (result ≡ n_in bundle.now) × (result < 65536) }
{
    two_at(bundle, 6)
}

#[tactic(auto, unfolding(crate::specs::Fields::length_in, crate::specs::Shadows::header_size))]
pub fn length_in(bundle: &[u8]) -> usize
    requires { header_size ≤ length bundle.now }
    ensures { (result ≡ length_in bundle.now) × (result < 4294967296) }
{
    four_at(bundle, 8)
}

#[tactic(auto, unfolding(crate::specs::Fields::held_in, crate::specs::Shadows::header_size))]
pub fn held_in(bundle: &[u8]) -> usize
    requires { header_size ≤ length bundle.now }
    ensures { (result ≡ held_in bundle.now) × (result < 65536) }
{
    two_at(bundle, 12)
}

// The fields of entry t.
pub fn position_in(bundle: &[u8], t: usize) -> usize
    requires { entry_at t + entry_size ≤ length bundle.now }
    ensures { (result ≡ position_in bundle.now t) × (result < 65536) }
{
    two_at(bundle, 16 + 8 * t)
}

pub fn count_in(bundle: &[u8], t: usize) -> usize
    requires { entry_at t + entry_size ≤ length bundle.now }
    ensures { (result ≡ count_in bundle.now t) × (result < 65536) }
{
    two_at(bundle, 16 + 8 * t + 2)
}

pub fn offset_in(bundle: &[u8], t: usize) -> usize
    requires { entry_at t + entry_size ≤ length bundle.now }
    ensures { (result ≡ offset_in bundle.now t) × (result < 4294967296) }
{
    four_at(bundle, 16 + 8 * t + 4)
}
