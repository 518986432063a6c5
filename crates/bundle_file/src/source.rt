// A file that is to be written, with the shape of its bundle: what the functions that write are given, once the checks have passed it.
ghost use Rattle.std.specs.Prelude.{◌≡◌, false, ◌<◌, ◌≤◌, length};
ghost use Rattle.field.specs.Size.{size_of};
ghost use Rattle.bundle_layout.specs.Blocks.{blocks_of};
ghost use Rattle.bundle_layout.specs.Shape.{bad_bundle_shape};

use bundle_layout::inner;

#[derive(Clone, Copy)]
pub struct Source<'a> {
    pub k: usize,
    pub n: usize,
    pub file: &'a [u8],
    pub ghost shaped: { bad_bundle_shape k n (length file.now) ≡ false },
}

impl Source<'_> {
    // N.
    pub fn size(self) -> usize
        ensures { (result ≡ size_of self.entry.n) × (self.entry.n ≤ result) }
    {
        field::size(self.n)
    }

    // B.
    pub fn blocks(self) -> usize
        ensures { (result ≡ blocks_of self.entry.k (length self.entry.file.now)) × (result < 65536) }
    {
        inner::blocks(self.k, self.file.len())
    }
}
