// No entry points: the polynomial of k symbols that, multiplied by the product M over the missing points, has given values at the N points, or that
// there is none. Of 4N cells the first N hold the values, the next N are room, the third N hold 1 / (N·K·M) at the K points between, and the
// last N the powers of ψ. Three transforms: one of N, which decides, and two of K.
#![tactic(auto)]

ghost use Rattle.std.specs.Prelude.{◌≡◌, false, List, ◌++◌, ℕ, ◌+◌, ◌-◌, ◌*◌, ◌<◌, ◌≤◌, length, get_or, take, drop};
ghost use Rattle.limits.specs.Shape.{bad_shape};
ghost use Rattle.field.specs.Field.{difference, power, product};
ghost use Rattle.field.specs.Size.{size_of};
ghost use Rattle.lists.specs.Tab.{tab};
ghost use Rattle.decode_between.specs.Between.{psi};
ghost use Rattle.decode_between.specs.Foldable.{PsiPowers, PsiTable, Foldable};
ghost use Rattle.decode_divide.specs.Dividing.{ZeroAt, Divided};
ghost use Rattle.decode_divide.specs.Quotients.{InversesBetween, with_quotients, untwisted, quotient_in};
ghost use Rattle.decode_divide.specs.Tests.{ZeroFrom, Decides};

use decode_between::values_between;
use field::{difference, inverse, product, size};
use transform_halving::scale;
use transform_table::{Turns, back_by};

// Whether all numbers from an index on are 0.
fn zero_from(list: &[u32], from: usize) -> bool
    ensures { Decides result (ZeroFrom from list.now) }
{
    let begin = from.min(list.len());
    list[begin..].iter().all(|number| *number == 0)
}

// The values at the points between, each divided by N·K·M.
fn divide_values(size: usize, step: usize, cells: &mut [u32])
    requires { (length cells.old ≡ 4 * size) × (step ≤ size) }
    ensures { cells.new ≡ with_quotients size step cells.old }
{
    let (front, inverses) = cells.split_at_mut(2 * size);
    for (i, value) in front[size..size + step].iter_mut().enumerate() {
        *value = product(*value, inverses[i]);
    }
}

// A coefficient of f from that of f(ψ·X): 1/ψ^i is -ψ^(N - i), which the table has but for i = 0.
fn untwist_one(i: usize, coefficient: u32, powers: &[u32]) -> u32
    requires { PsiPowers powers.now × (i < length powers.now) × (i ≡ 0 → coefficient < 65537) }
    ensures { result
        ≡ difference 0 (product coefficient (power (psi (length powers.now)) (length powers.now - i))) }
{
    if i == 0 {
        return coefficient;
    }
    difference(0, product(coefficient, powers[powers.len() - i]))
}

// The coefficients, to the front.
fn untwist(k: usize, size: usize, cells: &mut [u32])
    requires { PsiTable size cells.old × (k ≤ size) × (get_or cells.old size 0 < 65537) }
    ensures { cells.new
        ≡ tab k (untwisted size (drop size cells.old)) ++ drop k cells.old }
{
    let (front, powers) = cells.split_at_mut(3 * size);
    let (room, twisted) = front.split_at_mut(size);
    for (i, coefficient) in room[0..k].iter_mut().enumerate() {
        *coefficient = untwist_one(i, twisted[i], powers);
    }
}

// From the coefficients of N·f·M in front to those of f, where some point is missing.
fn quotient(k: usize, size: usize, step: usize, cells: &mut [u32])
    requires { Foldable size step cells.old × (k ≤ step) }
    ensures quotient { take k cells.new ≡ quotient_in k size step cells.old }
    ensures rest { drop (2 * size) cells.new ≡ drop (2 * size) cells.old }
{
    values_between(size, step, cells);
    divide_values(size, step, cells);
    let (front, table) = cells.split_at_mut(3 * size);
    let turns = Turns {
        table,
        step: 2 * size / step,
    };
    back_by(&mut front[size..size + step], turns);
    untwist(k, size, cells);
}

// Whether there is such a polynomial, which then stands in front; `missing` is how many points are. It is known after the first transform:
// M is monic, so f·M has no coefficient from k + missing on. Where nothing is missing M is 1.
pub fn divide(k: usize, n: usize, missing: usize, cells: &mut [u32]) -> bool
    requires { (bad_shape k n ≡ false) × Foldable (size_of n) (size_of k) cells.old × (missing ≤ size_of n) }
    ensures divided { (zs : List ℕ) → length zs ≡ missing → ZeroAt k zs (take (size_of n) cells.old)
        → (0 < missing → InversesBetween (size_of n) (size_of k) zs (drop (2 * size_of n) cells.old))
        → Divided result k zs (take (size_of n) cells.old) (take k cells.new) }
    ensures rest { drop (2 * size_of n) cells.new ≡ drop (2 * size_of n) cells.old }
{
    let step = size(k);
    let size = size(n);
    let (front, table) = cells.split_at_mut(3 * size);
    let turns = Turns { table, step: 2 };
    back_by(&mut front[0..size], turns);
    if !zero_from(&cells[0..size], k + missing) {
        return false;
    }
    if missing == 0 {
        scale(&mut cells[0..k], inverse(size as u32));
        return true;
    }
    quotient(k, size, step, cells);
    true
}
