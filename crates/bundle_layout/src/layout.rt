// A bundle whose layout is good: what the functions that read a bundle are given, once the tests have passed it. No entry points: the crates above
// have the type from `inner`.
ghost use Rattle.std.specs.Prelude.{◌≡◌, [], ◌<◌, ◌≤◌, IfOk};
ghost use Rattle.answers.specs.Refusals.{the_result, told};
ghost use Rattle.bundle_storage.specs.Blocks.{most_blocks};
ghost use Rattle.bundle_layout.specs.Fields.{k_in, n_in, length_in, held_in, blocks_in, position_in, count_in, offset_in};
ghost use Rattle.bundle_layout.specs.Layout.{layout_checks};

use crate::checks::layout_checks;
use crate::facts::Entry;
use crate::inner;
use answers::Refusal;

#[derive(Clone, Copy)]
pub struct Layout<'a> {
    pub bytes: &'a [u8],
    pub ghost good: { layout_checks bytes.now ≡ the_result [] },
}

impl<'a> Layout<'a> {
    // The tests of the layout.
    pub fn of(bundle: &'a [u8]) -> Result<Layout<'a>, Refusal>
        ensures answer { told (λ layout. []) result ≡ layout_checks bundle.now }
        ensures same { IfOk result (λ layout. layout.bytes.now ≡ bundle.now) }
    {
        layout_checks(bundle)?;
        Ok(Layout { bytes: bundle })
    }

    #[tactic(auto, using(crate::proofs::Reading::reading))]
    pub fn k(self) -> usize
        ensures { (result ≡ k_in self.entry.bytes.now) × (result < 65536) }
    {
        inner::k_in(self.bytes)
    }

    #[tactic(auto, using(crate::proofs::Reading::reading))]
    pub fn n(self) -> usize
        ensures { (result ≡ n_in self.entry.bytes.now) × (result < 65536) }
    {
        inner::n_in(self.bytes)
    }

    // L.
    #[tactic(auto, using(crate::proofs::Reading::reading))]
    pub fn length(self) -> usize
        ensures { (result ≡ length_in self.entry.bytes.now) × (result < 4294967296) }
    {
        inner::length_in(self.bytes)
    }

    // How many shadows are held.
    #[tactic(auto, using(crate::proofs::Reading::reading))]
    pub fn held(self) -> usize
        ensures { (result ≡ held_in self.entry.bytes.now) × (result < 65536) }
    {
        inner::held_in(self.bytes)
    }

    // B.
    #[tactic(auto, using(crate::proofs::Reading::reading))]
    pub fn blocks(self) -> usize
        ensures { (result ≡ blocks_in self.entry.bytes.now) × (result ≤ most_blocks) }
    {
        inner::blocks(self.k(), self.length())
    }

    // Entry t of the table, counted from 0.
    #[tactic(auto, using(crate::proofs::Reading::reading))]
    pub fn entry(self, t: usize) -> Entry
        requires { t < held_in self.bytes.now }
        ensures position { (result.position ≡ position_in self.entry.bytes.now t) × (result.position < 65536) }
        ensures offset { (result.offset ≡ offset_in self.entry.bytes.now t) × (result.offset < 4294967296) }
        ensures count { (result.count ≡ count_in self.entry.bytes.now t) × (result.count < 65536) }
    {
        Entry {
            position: inner::position_in(self.bytes, t),
            offset: inner::offset_in(self.bytes, t),
            count: inner::count_in(self.bytes, t),
        }
    }
}
