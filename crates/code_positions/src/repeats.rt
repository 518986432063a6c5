// REPEAT: whether a position stands earlier in the list, found with one bit for each position and one pass over the list. No entry point:
// its caller has made the check before it, POSITION.
ghost use Rattle.std.specs.Prelude.{◌≡◌, false, ◌/◌, ◌%◌, ◌^◌, ◌<◌, length};
ghost use Rattle.answers.specs.First.{found};
ghost use Rattle.limits.specs.Shape.{longest};
ghost use Rattle.code_positions.specs.Bitmap.{seen, with_seen};
ghost use Rattle.code.specs.Positions.{Inside};
ghost use Rattle.code.specs.Repeats.{first_repeat};

use limits::LONGEST;

// One bit for each position that a block can have, 32 to a cell.
const CELLS: usize = LONGEST / 32;

// What the position's bit is worth in its cell.
fn bit_of(position: usize) -> u32
    ensures { result ≡ 2 ^ (position % 32) }
{
    1 << (position % 32)
}

fn is_seen(map: &[u32], position: usize) -> bool
    requires { position / 32 < length map.now }
    ensures { result ≡ seen map.now position }
{
    let bit = bit_of(position);
    map[position / 32] / bit % 2 == 1
}

// Sets a bit that is not set yet, so that nothing is carried.
fn note_seen(map: &mut [u32], position: usize)
    requires { (position / 32 < length map.old) × (seen map.old position ≡ false) }
    ensures { map.new ≡ with_seen map.old position }
{
    map[position / 32] += bit_of(position);
}

// The index of the first position that stands earlier in the list.
pub fn first_repeat(positions: &[u32]) -> Option<usize>
    requires { Inside longest positions.now }
    ensures { result ≡ found (length positions.now) (first_repeat positions.now) }
{
    let mut map: [u32; CELLS] = [0; CELLS];
    for (i, number) in positions.iter().enumerate() {
        let position = *number as usize;
        if is_seen(&map, position) {
            return Some(i);
        }
        note_seen(&mut map, position);
    }
    None
}
