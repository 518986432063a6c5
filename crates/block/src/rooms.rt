// Room needed, worked out in one place for the checks and for the work. No entry points: the crate above reaches them through `inner`.
ghost use Rattle.std.specs.Prelude.{◌≡◌};
ghost use Rattle.code.specs.Rooms.{encode_work, decode_work};

use field::size;

pub fn encode_work(n: usize) -> usize
    ensures { result ≡ encode_work n }
{
    2 * size(n)
}

pub fn decode_work(n: usize) -> usize
    ensures { result ≡ decode_work n }
{
    4 * size(n)
}
