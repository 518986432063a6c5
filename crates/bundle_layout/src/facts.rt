// The entry points: what a bundle's header and table say, for callers that have to find memory first and for those that list it. Each makes the
// tests of the layout that the reader makes.
ghost use Rattle.std.specs.Prelude.{◌≡◌};
ghost use Rattle.bundle_layout.specs.Facts.{told_facts, told_entry, facts_answer, entry_answer};

use crate::layout::Layout;
use answers::Refusal;

#[derive(Clone, Copy)]
pub struct Facts {
    pub k: usize,
    pub n: usize,
    pub length: usize,
    pub held: usize,
    pub blocks: usize,
}

#[derive(Clone, Copy)]
pub struct Entry {
    pub position: usize,
    pub offset: usize,
    pub count: usize,
}

#[tactic(auto, using(crate::proofs::Reading::answering))]
pub fn facts_of(bundle: &[u8]) -> Result<Facts, Refusal>
    ensures { told_facts result ≡ facts_answer bundle.now }
{
    let layout = Layout::of(bundle)?;
    Ok(Facts {
        k: layout.k(),
        n: layout.n(),
        length: layout.length(),
        held: layout.held(),
        blocks: layout.blocks(),
    })
}

// Entry t of the table, counted from 0.
#[tactic(auto, using(crate::proofs::Reading::answering))]
pub fn entry_of(bundle: &[u8], t: usize) -> Result<Entry, Refusal>
    ensures { told_entry result ≡ entry_answer bundle.now t }
{
    let layout = Layout::of(bundle)?;
    if layout.held() <= t {
        return Err(Refusal::Position(0));
    }
    Ok(layout.entry(t))
}
