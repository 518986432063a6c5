// The whole file of a bundle whose layout is good, or nothing of it. No entry point and for this crate alone: the entry point has made the checks.
ghost use Rattle.std.specs.Prelude.{◌≡◌, ◌≤◌, length};
ghost use Rattle.answers.specs.Leaves.{leaving};
ghost use Rattle.bundle_layout.specs.Fields.{k_in, n_in, length_in, held_in};
ghost use Rattle.bundle_layout.specs.Rooms.{bundle_work};
ghost use Rattle.bundle.specs.Answers.{told_length};
ghost use Rattle.bundle.specs.Calls.{read_all_leaves};

use answers::Refusal;
use bundle_gather::start;
use bundle_layout::inner::Layout;
use bundle_read::read_blocks;
use cells::clear;

// The file, or the refusal of a block with the file's bytes zero; cells is the stated working space.
#[tactic(auto, using(crate::proofs::ReadLeaving::whole))]
pub fn read_all(bundle: Layout<'_>, file: &mut [u8], cells: &mut [u32]) -> Result<usize, Refusal>
    requires enough { k_in bundle.bytes.now ≤ held_in bundle.bytes.now }
    requires room { (length file.old ≡ length_in bundle.bytes.now) × (length cells.old ≡ bundle_work (n_in bundle.bytes.now)) }
    ensures { leaving (told_length result) file.new cells.new
        ≡ read_all_leaves bundle.entry.bytes.now file.old cells.old }
{
    let missing = start(bundle, cells);
    match read_blocks(bundle, missing, file, cells) {
        Ok(()) => {
            clear(cells);
            Ok(bundle.length())
        }
        Err(refusal) => {
            clear(file);
            clear(cells);
            Err(refusal)
        }
    }
}
