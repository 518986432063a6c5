// Two short products, multiplied by sums of products: a sum is reduced once. No entry points and for this crate alone: they ask for two lists of
// one length, which `multiply` is lent in the halves of the cells.
ghost use Rattle.std.specs.Prelude.{◌≡◌, ◌+◌, ◌/◌, ◌<◌, ◌≤◌, length, take};
ghost use Rattle.lists.specs.Tab.{tab};
ghost use Rattle.decode_product.specs.Factors.{coefficient, monic_times, run};
ghost use Rattle.decode_product.specs.Halves.{ShortLists, TwoFactors, first_factor, second_factor};

use cells::copy;

// The products of the numbers of one list with those of the other from its end, added up. None is above 2^32, and there are no more than 2^14 of
// them.
fn run(a: &[u32], b: &[u32]) -> u64
    requires { ShortLists a.now b.now }
    ensures { (result ≡ run a.now b.now 0 (length a.now)) × (result ≤ 70368744177664) }
{
    let mut sum: u64 = 0;
    for (x, y) in a.iter().zip(b.iter().rev()) {
        sum += u64::from(*x) * u64::from(*y);
    }
    sum
}

fn low(a: &[u32], b: &[u32], i: usize) -> u32
    requires { ShortLists a.now b.now × (i < length a.now) }
    ensures { result ≡ coefficient a.now b.now i }
{
    (run(&a[0..i + 1], &b[0..i + 1]) % 65537) as u32
}

// From the length on, each number of one list is met by the 1 of the other.
fn high(a: &[u32], b: &[u32], i: usize) -> u32
    requires { ShortLists a.now b.now × (i < length a.now) }
    ensures { result ≡ coefficient a.now b.now (length a.now + i) }
{
    let ones = u64::from(a[i]) + u64::from(b[i]);
    ((run(&a[i + 1..], &b[i + 1..]) + ones) % 65537) as u32
}

// The coefficients below the lists' length to one room, the others to another.
fn fill(a: &[u32], b: &[u32], below: &mut [u32], above: &mut [u32])
    requires { ShortLists a.now b.now × (length below.old ≡ length a.now) × (length above.old ≡ length a.now) }
    ensures lows { below.new ≡ tab (length a.now) (coefficient a.now b.now) }
    ensures highs { above.new ≡ tab (length a.now) (λ i. coefficient a.now b.now (length a.now + i)) }
{
    for i in 0..a.len() {
        below[i] = low(a, b, i);
        above[i] = high(a, b, i);
    }
}

pub fn multiply(cells: &mut [u32])
    requires { TwoFactors cells.old }
    ensures { take (length cells.old / 2) cells.new
        ≡ monic_times (first_factor cells.old) (second_factor cells.old) }
{
    let quarter = cells.len() / 4;
    let (front, back) = cells.split_at_mut(quarter * 2);
    let (first, below) = front.split_at_mut(quarter);
    let (second, above) = back.split_at_mut(quarter);
    fill(first, second, below, above);
    copy(below, first);
    copy(above, below);
}
