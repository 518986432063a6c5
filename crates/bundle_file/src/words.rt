// The file as words, and the code word of a block of it. No entry points and for this crate alone: the callers have made the checks.
ghost use Rattle.std.specs.Prelude.{◌≡◌, ◌++◌, ◌+◌, ◌*◌, ◌-◌, ◌<◌, ◌≤◌, length, take, replicate};
ghost use Rattle.limits.specs.Shape.{longest};
ghost use Rattle.field.specs.Size.{size_of};
ghost use Rattle.lists.specs.Tab.{tab};
ghost use Rattle.code.specs.Code.{code_word};
ghost use Rattle.code.specs.Message.{IsMessage};
ghost use Rattle.bundle_storage.specs.Blocks.{most_blocks};
ghost use Rattle.bundle_layout.specs.Blocks.{blocks_of};
ghost use Rattle.bundle_storage.specs.Bytes.{two_at};
ghost use Rattle.bundle_file.specs.File.{message_at};

use crate::source::Source;
use cells::clear;
use transform_halving::transform;

// The word at an index of the padded file: zero bytes stand behind the file's end.
#[tactic(auto, unfolding(bundle_storage::specs::Bytes::two_at))]
fn word_at(file: &[u8], at: usize) -> u32
    ensures { result ≡ two_at file.now at }
{
    match file.get(at..) {
        Some([first, second, ..]) => 256 * u32::from(*first) + u32::from(*second),
        Some([last]) => 256 * u32::from(*last),
        _ => 0,
    }
}

fn lay_words(file: &[u8], from: usize, words: &mut [u32])
    requires { from + 2 * length words.old < 4294967296 }
    ensures { words.new
        ≡ tab (length words.old) (λ i. two_at file.now (from + 2 * i)) }
{
    for (i, word) in words.iter_mut().enumerate() {
        *word = word_at(file, from + 2 * i);
    }
}

// The message of block b as the first of the cells, the others 0. That it is a message is told here, where the file is lent by itself: of a
// field that is lent it is not known that its numbers are bytes.
fn lay_block(k: usize, file: &[u8], b: usize, cells: &mut [u32])
    requires { (k ≤ longest) × (b < most_blocks) × (k ≤ length cells.old) }
    ensures laid { cells.new
        ≡ message_at k file.now b ++ replicate (length cells.old - k) 0 }
    ensures message { IsMessage k (message_at k file.now b) }
{
    lay_words(file, 2 * (k * b), &mut cells[0..k]);
    clear(&mut cells[k..]);
}

// The code word of block b at the front of N cells.
pub fn code_block(source: Source<'_>, b: usize, cells: &mut [u32])
    requires { (b < blocks_of source.k (length source.file.now)) × (length cells.old ≡ size_of source.n) }
    ensures { take source.entry.n cells.new ≡ code_word source.entry.n (message_at source.entry.k source.entry.file.now b) }
{
    lay_block(source.k, source.file, b, cells);
    transform(cells);
}
