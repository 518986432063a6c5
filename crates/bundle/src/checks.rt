// The checks of the writer, and those of the reader before the blocks, in document 01's order. They write nothing. No entry points and for this
// crate alone.
ghost use Rattle.std.specs.Prelude.{◌≡◌, ◌≤◌, [], IfOk};
ghost use Rattle.answers.specs.Refusals.{told, told_outcome};
ghost use Rattle.bundle.specs.Checks.{write_checks, read_checks};

use crate::rooms::{bundle_work, write_out};
use answers::Refusal;
use bundle_layout::inner::{Layout, bad_bundle_shape, blocks};
use limits::too_short;

// length is the file's, out and work are the lengths of the output and of the working space.
#[tactic(auto, using(crate::proofs::Writing::in_order), unfolding(crate::specs::Checks::write_checks))]
pub fn write_checks(
    k: usize,
    n: usize,
    length: usize,
    out: usize,
    work: usize,
) -> Result<(), Refusal>
    ensures { told_outcome result ≡ write_checks k n length out work }
{
    if bad_bundle_shape(k, n, length) {
        return Err(Refusal::Shape);
    }
    if too_short(out, write_out(n, blocks(k, length)), work, bundle_work(n)) {
        return Err(Refusal::Room);
    }
    Ok(())
}

// The tests of the layout, then ROOM and FEW.
#[tactic(auto, using(crate::proofs::ReadLeaving::in_order))]
pub fn read_checks<'a>(bundle: &'a [u8], out: usize, work: usize) -> Result<Layout<'a>, Refusal>
    ensures answer { told (λ layout. []) result ≡ read_checks bundle.now out work }
    ensures same { IfOk result (λ layout. layout.bytes.now ≡ bundle.now) }
{
    let layout = Layout::of(bundle)?;
    if too_short(out, layout.length(), work, bundle_work(layout.n())) {
        return Err(Refusal::Room);
    }
    if layout.held() < layout.k() {
        return Err(Refusal::Few);
    }
    Ok(layout)
}
