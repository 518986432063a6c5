// No entry points: the transform and its inverse in the list itself, equal to the plain sums, with no room beside it. Those that ask for a good
// list say so; scaling takes any. The list is put in the order in which its even places are the front half and its odd places the back half, at
// every size; then halves are halved until one number is left, and joined in place.
#![tactic(auto)]

ghost use Rattle.std.specs.Prelude.{◌≡◌, ◌%◌, ◌<◌, length, get_or};
ghost use Rattle.field.specs.Field.{product};
ghost use Rattle.field.specs.Size.{level_of, size_of};
ghost use Rattle.field.specs.Symbol.{Symbols};
ghost use Rattle.lists.specs.Tab.{tab};
ghost use Rattle.transform_halving.specs.InPlace.{joined_halves, halved};
ghost use Rattle.transform_halving.specs.Order.{IsNext, arranged, exchanged};
ghost use Rattle.transform_halving.specs.Transformable.{Transformable};
ghost use Rattle.transform_halving.specs.Transform.{transform_of, inverse_of};

use field::{difference, level, product, root, sum};

// The place after one in the order of reversed digits: one more, carried from the highest digit down.
fn next_place(place: usize, size: usize) -> usize
    ensures { IsNext result place size }
{
    let mut left = place;
    let mut digit = size / 2;
    while 0 < digit {
        if left < digit {
            return left + digit;
        }
        left -= digit;
        digit = digit / 2;
    }
    left
}

// Where a loop meets both places of a pair, they change once: when the lower one is met.
fn exchange(list: &mut [u32], i: usize, j: usize)
    requires { (i < length list.old) × (j < length list.old) }
    ensures { list.new ≡ exchanged list.old i j }
{
    if i < j {
        list.swap(i, j);
    }
}

pub fn arrange(list: &mut [u32])
    requires { length list.old ≡ size_of (length list.old) }
    ensures { list.new ≡ arranged list.old }
{
    let mut place = 0;
    for i in 0..list.len() {
        exchange(list, i, place);
        place = next_place(place, list.len());
    }
}

// The transforms of the halves lie side by side; turn is the power j of the root.
fn join(list: &mut [u32], root: u32)
    requires { (length list.old % 2 ≡ 0) × Symbols list.old }
    ensures { list.new ≡ joined_halves root list.old }
{
    let half = list.len() / 2;
    let (front, back) = list.split_at_mut(half);
    let mut turn: u32 = 1;
    for (j, even) in front.iter_mut().enumerate() {
        let odd = product(turn, back[j]);
        let first = sum(*even, odd);
        let second = difference(*even, odd);
        *even = first;
        back[j] = second;
        turn = product(turn, root);
    }
}

// "down to size 1, which changes nothing"
fn halve(list: &mut [u32], root: u32)
    requires { Transformable list.old }
    ensures { list.new ≡ halved (level_of (length list.old)) root list.old }
{
    if list.len() < 2 {
        return;
    }
    let half = list.len() / 2;
    let square = product(root, root);
    let (front, back) = list.split_at_mut(half);
    halve(front, square);
    halve(back, square);
    join(list, root);
}

pub fn scale(list: &mut [u32], factor: u32)
    ensures { list.new
        ≡ tab (length list.old) (λ j. product factor (get_or list.old j 0)) }
{
    for number in list.iter_mut() {
        *number = product(factor, *number);
    }
}

pub fn transform(list: &mut [u32])
    requires { Transformable list.old }
    ensures { list.new ≡ transform_of list.old }
{
    let root = root(level(list.len()));
    arrange(list);
    halve(list, root);
}

pub fn inverse(list: &mut [u32])
    requires { Transformable list.old }
    ensures { list.new ≡ inverse_of list.old }
{
    let root = root(level(list.len()));
    let back = field::inverse(root);
    let part = field::inverse(list.len() as u32);
    arrange(list);
    halve(list, back);
    scale(list, part);
}
