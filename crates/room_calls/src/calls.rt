// The entry points: each tells the room that the call of its name asks for, or refuses as that call does whatever it is lent, so that a caller
// can find memory first. The numbers are those that the call itself measures by.
ghost use Rattle.std.specs.Prelude.{◌≡◌};
ghost use Rattle.room_calls.specs.Rooms.{told_room, transform_room_answer, encode_room_answer, decode_room_answer, write_room_answer, read_room_answer};

use crate::space::Space;
use answers::Refusal;
use bundle::inner::{bundle_work, write_out};
use bundle_layout::inner::{Layout, bad_bundle_shape, blocks};
use limits::bad_shape;
use transform::inner::bad_length;

// Of the transform and of its inverse: they work in the list, and there is no output beside it.
#[tactic(auto, unfolding(crate::specs::Rooms::transform_room_answer))]
pub fn transform_room(length: usize) -> Result<Space, Refusal>
    ensures { told_room result ≡ transform_room_answer length }
{
    if bad_length(length) {
        return Err(Refusal::Shape);
    }
    Ok(Space {
        out: 0,
        work: length,
    })
}

#[tactic(auto, unfolding(crate::specs::Rooms::encode_room_answer))]
pub fn encode_room(k: usize, n: usize) -> Result<Space, Refusal>
    ensures { told_room result ≡ encode_room_answer k n }
{
    if bad_shape(k, n) {
        return Err(Refusal::Shape);
    }
    Ok(Space {
        out: n,
        work: block::inner::encode_work(n),
    })
}

#[tactic(auto, unfolding(crate::specs::Rooms::decode_room_answer))]
pub fn decode_room(k: usize, n: usize) -> Result<Space, Refusal>
    ensures { told_room result ≡ decode_room_answer k n }
{
    if bad_shape(k, n) {
        return Err(Refusal::Shape);
    }
    Ok(Space {
        out: k,
        work: block::inner::decode_work(n),
    })
}

// length is the file's.
#[tactic(auto, using(bundle_layout::proofs::Passing::measuring), unfolding(crate::specs::Rooms::write_room_answer))]
pub fn write_room(k: usize, n: usize, length: usize) -> Result<Space, Refusal>
    ensures { told_room result ≡ write_room_answer k n length }
{
    if bad_bundle_shape(k, n, length) {
        return Err(Refusal::Shape);
    }
    Ok(Space {
        out: write_out(n, blocks(k, length)),
        work: bundle_work(n),
    })
}

#[tactic(auto, unfolding(crate::specs::Rooms::read_room_answer))]
pub fn read_room(bundle: &[u8]) -> Result<Space, Refusal>
    ensures { told_room result ≡ read_room_answer bundle.now }
{
    let layout = Layout::of(bundle)?;
    Ok(Space {
        out: layout.length(),
        work: bundle_work(layout.n()),
    })
}
