// One line for each case.
use answers::Refusal;
use field::Point;
use std::io;

fn symbol(rt: &impl Print, answer: Result<u32, Refusal>) -> io::Result<()> {
    match answer {
        Ok(value) => println!(rt; "{value}"),
        Err(refused) => println!(rt; "{refused}"),
    }
}

// A line `a + b = answer`.
pub fn operation(
    rt: &impl Print,
    a: u32,
    sign: &str,
    b: u32,
    answer: Result<u32, Refusal>,
) -> io::Result<()> {
    print!(rt; "{a} {sign} {b} = ")?;
    symbol(rt, answer)
}

pub fn root(
    rt: &impl Print,
    level: usize,
    root: u32,
    square: Result<u32, Refusal>,
) -> io::Result<()> {
    print!(rt; "root {level} = {root}, its square = ")?;
    symbol(rt, square)
}

pub fn inverse(rt: &impl Print, x: u32, answer: Result<u32, Refusal>) -> io::Result<()> {
    print!(rt; "inverse of {x} = ")?;
    symbol(rt, answer)
}

pub fn point(
    rt: &impl Print,
    n: usize,
    i: usize,
    answer: Result<Point, Refusal>,
) -> io::Result<()> {
    print!(rt; "n {n}, point of position {i} = ")?;
    symbol(rt, answer.map(|point| point.0))
}
