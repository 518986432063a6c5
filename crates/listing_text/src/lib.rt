// No entry points: what the listing program prints, as text in lent memory, and all that it decides.
#![tactic(auto)]

mod answer;
mod table;

ghost use Rattle.std.specs.Prelude.{◌≡◌, [], ◌∷◌, ◌*◌, ◌≤◌, length};
ghost use Rattle.answers.specs.Leaves.{leaving};
ghost use Rattle.answers.specs.Refusals.{the_result, number_of};
ghost use Rattle.listing_text.specs.Answers.{most_n};
ghost use Rattle.listing_text.specs.Calls.{text_room, list_leaves};
ghost use Rattle.listing_text.specs.Listing.{alone};

use crate::answer::program_answer;
use crate::table::put_listing;
use answers::Refusal;
use bundle_layout::inner::Layout;
use cells::clear;
use listing_lines::{put_ok, put_refused};

#[tactic(auto, unfolding(crate::specs::Listing::alone))]
fn alone(refusal: Refusal) -> bool
    ensures { result ≡ alone (number_of refusal) }
{
    matches!(refusal, Refusal::Shape | Refusal::Room | Refusal::Form)
}

// What is printed, at the front of text; where it ends is the answer.
pub fn list(input: &[u8], text: &mut [u8], work: &mut [u32]) -> usize
    requires { (text_room ≤ length text.old) × (length work.old ≡ 8 * most_n) }
    ensures { leaving (the_result (result ∷ [])) text.new work.new
        ≡ list_leaves input.now text.old work.old }
{
    let answer = program_answer(input, work);
    clear(work);
    match answer {
        Ok(()) => {
            let end = put_listing(Layout { bytes: input }, text);
            put_ok(text, end)
        }
        Err(refusal) => {
            if alone(refusal) {
                return put_refused(refusal, text, 0);
            }
            let end = put_listing(Layout { bytes: input }, text);
            put_refused(refusal, text, end)
        }
    }
}
