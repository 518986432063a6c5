// The refusals by name (document 01, "Numbers a refusal carries"); those whose place is stated carry it.
ghost use Rattle.std.specs.Prelude.{◌≡◌};
ghost use Rattle.answers.specs.Refusals.{number_of, place_of};

use std::error::Error;
use std::fmt;

#[derive(Clone, Copy, Debug, PartialEq, Eq)]
pub enum Refusal {
    Shape,
    Length,
    Room,
    Few,
    Position(usize),
    Repeat(usize),
    Value(usize),
    Disagree(usize),
    Word(usize),
    Tail(usize),
    Form,
}

impl Refusal {
    pub fn number(self) -> u32
        ensures { result ≡ number_of self }
    {
        match self {
            Refusal::Shape => 1,
            Refusal::Length => 2,
            Refusal::Room => 3,
            Refusal::Few => 4,
            Refusal::Position(_) => 5,
            Refusal::Repeat(_) => 6,
            Refusal::Value(_) => 7,
            Refusal::Disagree(_) => 8,
            Refusal::Word(_) => 9,
            Refusal::Tail(_) => 10,
            Refusal::Form => 11,
        }
    }

    // The place of a refusal, 0 unless stated.
    pub fn place(self) -> usize
        ensures { result ≡ place_of self }
    {
        match self {
            Refusal::Position(at) => at,
            Refusal::Repeat(at) => at,
            Refusal::Value(at) => at,
            Refusal::Disagree(at) => at,
            Refusal::Word(at) => at,
            Refusal::Tail(at) => at,
            Refusal::Shape | Refusal::Length | Refusal::Room | Refusal::Few | Refusal::Form => 0,
        }
    }
}

// As the listing prints it, but for the line feed.
impl fmt::Display for Refusal {
    ghost use Rattle.std.specs.Prelude.{Some};
    ghost use Rattle.answers.specs.Printed.{refusal_text};

    ghost output = { λ refusal. Some (refusal_text refusal) };

    fn fmt<W: fmt::Write>(&self, f: &mut fmt::Formatter<W>) -> fmt::Result {
        let number = self.number();
        let place = self.place();
        write!(f, "REFUSED {number} {place}")
    }
}

impl Error for Refusal {}
