// The plain evaluation of a polynomial at one number, by Horner's rule. No entry points: it takes any numbers.
ghost use Rattle.std.specs.Prelude.{◌≡◌, ◌%◌, ◌<◌};
ghost use Rattle.field.specs.Symbol.{IsSymbol};
ghost use Rattle.poly.specs.Value.{value};

// By Horner's rule, from the last coefficient down.
pub fn value(coefficients: &[u32], x: u32) -> u32
    ensures { IsSymbol result (value coefficients.now x % 65537) }
{
    let mut result: u32 = 0;
    for i in (0..coefficients.len()).rev() {
        let wide = u64::from(coefficients[i]) + u64::from(x) * u64::from(result);
        result = (wide % 65537) as u32;
    }
    result
}
