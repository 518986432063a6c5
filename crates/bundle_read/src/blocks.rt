// Reading a bundle whose layout is good, block by block. No entry points: the callers have made the checks and prepared the working space.
ghost use Rattle.std.specs.Prelude.{◌≡◌, [], ◌∷◌, ◌++◌, suc, ◌*◌, ◌<◌, ◌≤◌, length, take};
ghost use Rattle.std.proofs.Math.Option.{some};
ghost use Rattle.answers.specs.Refusals.{the_result, told_outcome, after};
ghost use Rattle.field.specs.Symbol.{Symbols};
ghost use Rattle.bundle_storage.specs.Bytes.{in_bytes};
ghost use Rattle.bundle_layout.specs.Fields.{k_in, length_in, held_in, blocks_in};
ghost use Rattle.bundle_gather.specs.Gathering.{missing_in, Laid};
ghost use Rattle.bundle_read.specs.Reading.{judged, block_answer, blocks_answer, BlocksLaid, file_in};

use crate::bytes::{bad_bytes, bad_word, lay_bytes};
use answers::Refusal;
use bundle_gather::gather;
use bundle_layout::inner::Layout;
use bundle_storage::known_as_bytes;
use decode_divide::divide;
use field::size;

// The message of block b into the file, or WORD or TAIL.
fn take_message(
    bundle: Layout<'_>,
    b: usize,
    message: &[u32],
    file: &mut [u8],
) -> Result<(), Refusal>
    requires block { b < blocks_in bundle.bytes.now }
    requires a_message { (length message.now ≡ k_in bundle.bytes.now) × Symbols message.now }
    ensures answer { told_outcome result
        ≡ judged (k_in bundle.entry.bytes.now) (length_in bundle.entry.bytes.now) b (some message.now) }
    ensures laid { told_outcome result ≡ the_result []
        → take (2 * (k_in bundle.entry.bytes.now * suc b)) file.new
        ≡ take (length file.old)
        (take (2 * (k_in bundle.entry.bytes.now * b)) file.old ++ in_bytes message.now) }
{
    let from = 2 * (bundle.k() * b);
    if bad_word(message) {
        return Err(Refusal::Word(b));
    }
    if bad_bytes(message, bundle.length() - from) {
        return Err(Refusal::Tail(b));
    }
    lay_bytes(message, from, file);
    Ok(())
}

// Block b: its message into the file, or its refusal.
fn read_block(
    bundle: Layout<'_>,
    b: usize,
    missing: usize,
    file: &mut [u8],
    cells: &mut [u32],
) -> Result<(), Refusal>
    requires readable { (b < blocks_in bundle.bytes.now) × (k_in bundle.bytes.now ≤ held_in bundle.bytes.now) }
    requires prepared { (missing ≡ length (missing_in bundle.bytes.now)) × Laid bundle.bytes.now b cells.old }
    ensures answer { told_outcome result ≡ block_answer bundle.entry.bytes.now b }
    ensures laid { Laid bundle.entry.bytes.now (suc b) cells.new }
    ensures file { told_outcome result ≡ the_result []
        → BlocksLaid bundle.entry.bytes.now b (length file.old) file.old
        → BlocksLaid bundle.entry.bytes.now (suc b) (length file.old) file.new }
{
    known_as_bytes(bundle.bytes);
    let k = bundle.k();
    let n = bundle.n();
    let end = 4 * size(n);
    gather(bundle, b, cells);
    if !divide(k, n, missing, &mut cells[0..end]) {
        return Err(Refusal::Disagree(b));
    }
    take_message(bundle, b, &cells[0..k], file)
}

// The blocks in order, as far as none is refused. Of the file the first bytes are laid, as many as there is room for: a caller who only wants to
// know whether it can be read lends none. missing is what start returned.
pub fn read_blocks(
    bundle: Layout<'_>,
    missing: usize,
    file: &mut [u8],
    cells: &mut [u32],
) -> Result<(), Refusal>
    requires readable { (k_in bundle.bytes.now ≤ held_in bundle.bytes.now) × (length file.old ≤ length_in bundle.bytes.now) }
    requires prepared { (missing ≡ length (missing_in bundle.bytes.now)) × Laid bundle.bytes.now 0 cells.old }
    ensures answer { after (told_outcome result) (the_result (length_in bundle.entry.bytes.now ∷ []))
        ≡ blocks_answer bundle.entry.bytes.now 0 (blocks_in bundle.entry.bytes.now) }
    ensures file { told_outcome result ≡ the_result []
        → file.new ≡ take (length file.old) (file_in bundle.entry.bytes.now) }
{
    for b in 0..bundle.blocks() {
        read_block(bundle, b, missing, file, cells)?;
    }
    Ok(())
}
