// Runs the field's worked numbers and limits, one to a line; what it must write is worked out apart from it, by tests/vectors.py.
#![tactic(auto)]

mod show;

use field::Position;
use std::io;

fn main(rt: HostRuntime) -> io::Result<()> {
    operations(&rt)?;
    operands(&rt)?;
    roots(&rt)?;
    inverses(&rt)?;
    points(&rt)
}

// Numbers at the modulus: 65536 is lost in sixteen bits, its square in thirty-two, and a difference would fall below 0.
fn operations(rt: &impl Print) -> io::Result<()> {
    sum(rt, 65536, 1)?;
    sum(rt, 65536, 65536)?;
    difference(rt, 0, 1)?;
    difference(rt, 0, 65536)?;
    product(rt, 65536, 65536)?;
    product(rt, 65536, 2)?;
    power(rt, 3, 32768)?;
    power(rt, 3, 65536)?;
    power(rt, 0, 0)
}

// The place is the index of the first operand above 65536.
fn operands(rt: &impl Print) -> io::Result<()> {
    sum(rt, 65537, 0)?;
    sum(rt, 0, 65537)?;
    sum(rt, 65537, 65537)?;
    difference(rt, 0, 4294967295)?;
    product(rt, 4294967295, 4294967295)?;
    power(rt, 65537, 1)?;
    power(rt, 1, 65537)
}

fn roots(rt: &impl Print) -> io::Result<()> {
    for level in 0..17 {
        let root = field::root(level);
        show::root(rt, level, root, field_calls::product(root, root))?;
    }
    Ok(())
}

fn inverses(rt: &impl Print) -> io::Result<()> {
    inverse(rt, 1)?;
    inverse(rt, 2)?;
    inverse(rt, 65536)?;
    inverse(rt, 0)?;
    inverse(rt, 65537)
}

// n = 3 takes the root of order 4.
fn points(rt: &impl Print) -> io::Result<()> {
    point(rt, 1, 0)?;
    point(rt, 3, 1)?;
    point(rt, 3, 2)?;
    point(rt, 3, 3)?;
    point(rt, 4, 3)?;
    point(rt, 4, 4)?;
    point(rt, 4096, 1)?;
    point(rt, 4096, 4095)?;
    point(rt, 4096, 4096)?;
    point(rt, 4097, 0)?;
    point(rt, 0, 0)
}

fn sum(rt: &impl Print, a: u32, b: u32) -> io::Result<()> {
    show::operation(rt, a, "+", b, field_calls::sum(a, b))
}

fn difference(rt: &impl Print, a: u32, b: u32) -> io::Result<()> {
    show::operation(rt, a, "-", b, field_calls::difference(a, b))
}

fn product(rt: &impl Print, a: u32, b: u32) -> io::Result<()> {
    show::operation(rt, a, "*", b, field_calls::product(a, b))
}

fn power(rt: &impl Print, x: u32, n: u32) -> io::Result<()> {
    show::operation(rt, x, "^", n, field_calls::power(x, n))
}

fn inverse(rt: &impl Print, x: u32) -> io::Result<()> {
    show::inverse(rt, x, field_calls::inverse(x))
}

fn point(rt: &impl Print, n: usize, i: usize) -> io::Result<()> {
    show::point(rt, n, i, field_calls::point_at(n, Position(i)))
}
