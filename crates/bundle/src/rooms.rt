// Room needed, worked out in one place for the checks and for the work. No entry points: the crates above reach them through `inner`.
ghost use Rattle.std.specs.Prelude.{◌≡◌, ◌≤◌};
ghost use Rattle.limits.specs.Shape.{longest};
ghost use Rattle.bundle_storage.specs.Blocks.{most_blocks};
ghost use Rattle.bundle_layout.specs.Rooms.{write_out, bundle_work};

use field::size;

// n and B are those of a good shape.
pub fn write_out(n: usize, blocks: usize) -> usize
    requires { (n ≤ longest) × (blocks ≤ most_blocks) }
    ensures { result ≡ write_out n blocks }
{
    16 + 8 * n + 4 * (n * blocks)
}

pub fn bundle_work(n: usize) -> usize
    ensures { result ≡ bundle_work n }
{
    8 * size(n)
}
