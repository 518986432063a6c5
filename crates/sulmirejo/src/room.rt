// The part of the face that tells how much room a call asks for.
ghost use Rattle.std.specs.Prelude.{◌≡◌};
ghost use Rattle.room_calls.specs.Rooms.{told_room, transform_room_answer, encode_room_answer, decode_room_answer, write_room_answer, read_room_answer};
ghost use Rattle.answers.specs.Telling.{status_number};
ghost use Rattle.sulmirejo.specs.Face.{with_room, room_returned};

use answers::{Refusal, tell};
use room_calls::Space;

// The room goes to out and work where there is one.
fn tell_room(
    answer: Result<Space, Refusal>,
    out: &mut usize,
    work: &mut usize,
    number: &mut usize,
) -> u32
    ensures { with_room (status_number result number.new) out.new work.new
        ≡ room_returned (told_room answer) out.old work.old }
{
    match answer {
        Ok(space) => {
            *out = space.out;
            *work = space.work;
            tell(Ok(()), number)
        }
        Err(refusal) => tell(Err(refusal), number),
    }
}

// There is no output to tell of: in its place stands 0, before and afterwards.
#[tactic(auto, unfolding(room_calls::specs::Rooms::transform_room_answer))]
#[unsafe(no_mangle)]
pub extern "C" fn sulmirejo_transform_room(
    length: usize,
    work: &mut usize,
    number: &mut usize,
) -> u32
    ensures { with_room (status_number result number.new) 0 work.new
        ≡ room_returned (transform_room_answer length) 0 work.old }
{
    let mut none = 0;
    tell_room(room_calls::transform_room(length), &mut none, work, number)
}

#[unsafe(no_mangle)]
pub extern "C" fn sulmirejo_encode_room(
    k: usize,
    n: usize,
    out: &mut usize,
    work: &mut usize,
    number: &mut usize,
) -> u32
    ensures { with_room (status_number result number.new) out.new work.new
        ≡ room_returned (encode_room_answer k n) out.old work.old }
{
    tell_room(room_calls::encode_room(k, n), out, work, number)
}

#[unsafe(no_mangle)]
pub extern "C" fn sulmirejo_decode_room(
    k: usize,
    n: usize,
    out: &mut usize,
    work: &mut usize,
    number: &mut usize,
) -> u32
    ensures { with_room (status_number result number.new) out.new work.new
        ≡ room_returned (decode_room_answer k n) out.old work.old }
{
    tell_room(room_calls::decode_room(k, n), out, work, number)
}

#[unsafe(no_mangle)]
pub extern "C" fn sulmirejo_write_room(
    k: usize,
    n: usize,
    length: usize,
    out: &mut usize,
    work: &mut usize,
    number: &mut usize,
) -> u32
    ensures { with_room (status_number result number.new) out.new work.new
        ≡ room_returned (write_room_answer k n length) out.old work.old }
{
    tell_room(room_calls::write_room(k, n, length), out, work, number)
}

#[unsafe(no_mangle)]
pub extern "C" fn sulmirejo_read_room(
    bundle: &[u8],
    out: &mut usize,
    work: &mut usize,
    number: &mut usize,
) -> u32
    ensures { with_room (status_number result number.new) out.new work.new
        ≡ room_returned (read_room_answer bundle.now) out.old work.old }
{
    tell_room(room_calls::read_room(bundle), out, work, number)
}
