// What the program answers to its input. No entry points and for this crate alone: `list` asks its caller for the working space.
ghost use Rattle.std.specs.Prelude.{◌≡◌, [], ◌∷◌, ◌*◌, ◌≤◌, length, IfOk};
ghost use Rattle.answers.specs.Refusals.{the_result, told_outcome, after};
ghost use Rattle.bundle_layout.specs.Fields.{k_in, n_in, length_in, held_in, blocks_in};
ghost use Rattle.bundle_layout.specs.Layout.{layout_checks};
ghost use Rattle.bundle_layout.specs.Rooms.{bundle_work};
ghost use Rattle.bundle_read.specs.Reading.{blocks_answer};
ghost use Rattle.listing_text.specs.Answers.{most_n, served_answer, program_answer};

use answers::Refusal;
use bundle::inner::bundle_work;
use bundle_gather::start;
use bundle_layout::inner::Layout;
use bundle_read::read_blocks;

const MOST_INPUT: usize = 24576;

const MOST_N: usize = 256;

const MOST_LENGTH: usize = 24576;

// Every block is decoded; of the file no byte is kept, since none is printed.
fn blocks_answer(bundle: Layout<'_>, cells: &mut [u32]) -> Result<(), Refusal>
    requires { (k_in bundle.bytes.now ≤ held_in bundle.bytes.now) × (length cells.old ≡ bundle_work (n_in bundle.bytes.now)) }
    ensures { after (told_outcome result) (the_result (length_in bundle.entry.bytes.now ∷ []))
        ≡ blocks_answer bundle.entry.bytes.now 0 (blocks_in bundle.entry.bytes.now) }
{
    let mut file = [0u8; 1];
    let missing = start(bundle, cells);
    read_blocks(bundle, missing, &mut file[0..0], cells)
}

// ROOM, FEW and the blocks, once the layout is good.
fn served_answer(bundle: Layout<'_>, work: &mut [u32]) -> Result<(), Refusal>
    requires { length work.old ≡ 8 * most_n }
    ensures { after (told_outcome result) (the_result (length_in bundle.entry.bytes.now ∷ []))
        ≡ served_answer bundle.entry.bytes.now }
{
    let n = bundle.n();
    if MOST_N < n {
        return Err(Refusal::Room);
    }
    if MOST_LENGTH < bundle.length() {
        return Err(Refusal::Room);
    }
    if bundle.held() < bundle.k() {
        return Err(Refusal::Few);
    }
    let stated = bundle_work(n);
    blocks_answer(bundle, &mut work[0..stated])
}

#[tactic(auto, using(crate::proofs::Answering::programmed), unfolding(crate::specs::Answers::most_input))]
pub fn program_answer(input: &[u8], work: &mut [u32]) -> Result<(), Refusal>
    requires { length work.old ≡ 8 * most_n }
    ensures { after (told_outcome result) (the_result (length_in input.now ∷ []))
        ≡ program_answer input.now }
{
    if MOST_INPUT < input.len() {
        return Err(Refusal::Room);
    }
    served_answer(Layout::of(input)?, work)
}
