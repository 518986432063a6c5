// The table of the seventeen roots, and which of them n asks for. No entry points: root asks for an index of the table.
ghost use Rattle.std.specs.Prelude.{◌≡◌, ◌<◌};
ghost use Rattle.field.specs.Roots.{root};
ghost use Rattle.field.specs.Size.{IsLevel, size_of};
ghost use Rattle.field.specs.Symbol.{IsSymbol};

// The root of order 2^i at index i: each is the square of the next one.
const ROOTS: [u32; 17] = [
    1, 65536, 65281, 4096, 64, 65529, 8224, 13987, 282, 15028, 19139, 61869, 54449, 6561, 81, 9, 3,
];

// The root of order 2^level.
pub fn root(level: usize) -> u32
    requires { level < 17 }
    ensures { IsSymbol result (root level) }
{
    ROOTS[level]
}

// The index of N's root in the table. Above 65536 there is no such root, and the answer is the last index.
pub fn level(n: usize) -> usize
    ensures { IsLevel result n }
{
    let mut size = 1;
    for level in 0..16 {
        if n <= size {
            return level;
        }
        size *= 2;
    }
    16
}

// N, for n up to 65536.
pub fn size(n: usize) -> usize
    ensures { result ≡ size_of n }
{
    1 << level(n)
}
