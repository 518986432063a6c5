// Sum, difference, product, power and inverse of symbols. No entry points: sum and difference ask for symbols, the others take any number.
ghost use Rattle.std.specs.Prelude.{◌<◌};
ghost use Rattle.field.specs.Field.{sum, difference, product, power, inverse};
ghost use Rattle.field.specs.Symbol.{IsSymbol};

// Both operands are symbols, so one subtraction brings their sum back.
#[tactic(auto, unfolding(crate::specs::Field::sum))]
pub fn sum(a: u32, b: u32) -> u32
    requires { (a < 65537) × (b < 65537) }
    ensures { IsSymbol result (sum a b) }
{
    let plain = a + b;
    if plain < 65537 { plain } else { plain - 65537 }
}

#[tactic(auto, unfolding(crate::specs::Field::difference))]
pub fn difference(a: u32, b: u32) -> u32
    requires { (a < 65537) × (b < 65537) }
    ensures { IsSymbol result (difference a b) }
{
    if a < b { a + 65537 - b } else { a - b }
}

// 65536 · 65536 is 2^32, one more than a u32 holds.
#[tactic(auto, unfolding(crate::specs::Field::product))]
pub fn product(a: u32, b: u32) -> u32
    ensures { IsSymbol result (product a b) }
{
    let wide = u64::from(a) * u64::from(b);
    (wide % 65537) as u32
}

// By squaring: at the loop's head result · base^left is the power.
pub fn power(x: u32, exponent: usize) -> u32
    ensures { IsSymbol result (power x exponent) }
{
    let mut result: u32 = 1;
    let mut base = x;
    let mut left = exponent;
    while 0 < left {
        if left % 2 == 1 {
            result = product(result, base);
        }
        base = product(base, base);
        left = left / 2;
    }
    result
}

#[tactic(auto, unfolding(crate::specs::Field::inverse))]
pub fn inverse(x: u32) -> u32
    ensures { IsSymbol result (inverse x) }
{
    power(x, 65535)
}
