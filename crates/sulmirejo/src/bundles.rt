// The part of the face that has to do with bundles: the writer, the reader, and what a bundle's header and table say.
ghost use Rattle.std.specs.Prelude.{◌≡◌};
ghost use Rattle.bundle_layout.specs.Facts.{facts_answer, entry_answer};
ghost use Rattle.bundle.specs.Answers.{told_length};
ghost use Rattle.bundle.specs.Calls.{write_leaves, read_leaves};
ghost use Rattle.answers.specs.Telling.{status_number};
ghost use Rattle.sulmirejo.specs.Face.{returned_number, with_lists, lists_returned_number, with_facts, facts_returned, with_entry, entry_returned};

use answers::{Refusal, tell};

// 0 or the refusal's number; the length or the place goes to number.
fn tell_length(answer: Result<usize, Refusal>, number: &mut usize) -> u32
    ensures { status_number result number.new ≡ returned_number (told_length answer) }
{
    match answer {
        Ok(length) => {
            *number = length;
            0
        }
        Err(refusal) => tell(Err(refusal), number),
    }
}

#[unsafe(no_mangle)]
pub extern "C" fn sulmirejo_write(
    k: usize,
    n: usize,
    file: &[u8],
    out: &mut [u8],
    work: &mut [u32],
    number: &mut usize,
) -> u32
    ensures { with_lists (status_number result number.new) out.new work.new
        ≡ lists_returned_number (write_leaves k n file.now out.old work.old) }
{
    tell_length(bundle::write(k, n, file, out, work), number)
}

#[unsafe(no_mangle)]
pub extern "C" fn sulmirejo_read(
    bundle: &[u8],
    out: &mut [u8],
    work: &mut [u32],
    number: &mut usize,
) -> u32
    ensures { with_lists (status_number result number.new) out.new work.new
        ≡ lists_returned_number (read_leaves bundle.now out.old work.old) }
{
    tell_length(bundle::read(bundle, out, work), number)
}

// What the header says.
#[unsafe(no_mangle)]
pub extern "C" fn sulmirejo_facts(
    bundle: &[u8],
    k: &mut usize,
    n: &mut usize,
    length: &mut usize,
    held: &mut usize,
    blocks: &mut usize,
    number: &mut usize,
) -> u32
    ensures { with_facts (status_number result number.new)
        k.new n.new length.new held.new blocks.new
        ≡ facts_returned (facts_answer bundle.now)
        k.old n.old length.old held.old blocks.old }
{
    match bundle_layout::facts_of(bundle) {
        Ok(facts) => {
            *k = facts.k;
            *n = facts.n;
            *length = facts.length;
            *held = facts.held;
            *blocks = facts.blocks;
            tell(Ok(()), number)
        }
        Err(refusal) => tell(Err(refusal), number),
    }
}

// What the table says of one shadow.
#[unsafe(no_mangle)]
pub extern "C" fn sulmirejo_entry(
    bundle: &[u8],
    index: usize,
    position: &mut usize,
    offset: &mut usize,
    count: &mut usize,
    number: &mut usize,
) -> u32
    ensures { with_entry (status_number result number.new) position.new offset.new count.new
        ≡ entry_returned (entry_answer bundle.now index) position.old offset.old count.old }
{
    match bundle_layout::entry_of(bundle, index) {
        Ok(entry) => {
            *position = entry.position;
            *offset = entry.offset;
            *count = entry.count;
            tell(Ok(()), number)
        }
        Err(refusal) => tell(Err(refusal), number),
    }
}
