// The entry points: they test their input and refuse by document 01's numbers. Refusals 1, 3, 4 and 11 come before anything lent is written, those
// of a block after the work, with the output's first L bytes and the stated working space cleared.
ghost use Rattle.std.specs.Prelude.{◌≡◌};
ghost use Rattle.answers.specs.Leaves.{leaving};
ghost use Rattle.bundle.specs.Answers.{told_length};
ghost use Rattle.bundle.specs.Calls.{write_leaves, read_leaves};

use crate::checks::{read_checks, write_checks};
use crate::rooms::bundle_work;
use crate::whole::read_all;
use answers::Refusal;
use bundle_file::Source;
use bundle_write::write_all;

// The bundle of all n shadows of the file, at the output's front; its length is the answer.
#[tactic(auto, using(crate::proofs::Writing::writing))]
pub fn write(
    k: usize,
    n: usize,
    file: &[u8],
    out: &mut [u8],
    work: &mut [u32],
) -> Result<usize, Refusal>
    ensures { leaving (told_length result) out.new work.new
        ≡ write_leaves k n file.now out.old work.old }
{
    write_checks(k, n, file.len(), out.len(), work.len())?;
    let source = Source { k, n, file };
    let stated = bundle_work(n);
    Ok(write_all(source, out, &mut work[0..stated]))
}

// The file of the bundle, at the output's front; its length L is the answer.
#[tactic(auto, using(crate::proofs::ReadLeaving::reading))]
pub fn read(bundle: &[u8], out: &mut [u8], work: &mut [u32]) -> Result<usize, Refusal>
    ensures { leaving (told_length result) out.new work.new
        ≡ read_leaves bundle.now out.old work.old }
{
    let layout = read_checks(bundle, out.len(), work.len())?;
    let length = layout.length();
    let stated = bundle_work(layout.n());
    read_all(layout, &mut out[0..length], &mut work[0..stated])
}
