// What the library refuses, and how a refusal travels: number, layer and place together.
ghost use Rattle.std.specs.Prelude.{◌≡◌, Some};
ghost use Rattle.bits.specs.Refusals.{fault_at, number_of, number_text, refused_text};

use std::error::Error;
use std::fmt;

// Why a call was refused, with the number by which users know it.
#[derive(Clone, Copy, PartialEq, Eq, Debug)]
pub enum Refusal {
    ParameterOutOfRange = 1,
    TooFewWords = 2,
    Truncated = 3,
    WrongMark = 4,
    WrongNumber = 5,
    StrayBit = 6,
    LayerCollapses = 7,
    NotInverse = 8,
    NoInstance = 9,
    WrongCount = 10,
    WrongLength = 11,
    OutOfGates = 12,
    OverCapacity = 13,
    BadTriples = 14,
    KeyTooNarrow = 15,
    SourceDry = 16,
    NothingKept = 17,
}

// The part of the library that refused.
#[derive(Clone, Copy, PartialEq, Eq, Debug)]
pub enum Layer {
    Set,
    File,
    Batch,
    Engine,
    Draw,
}

// A refusal with its layer and its place; what the place means depends on the refusal.
#[derive(Clone, Copy, PartialEq, Eq, Debug)]
pub struct Fault {
    pub refusal: Refusal,
    pub layer: Layer,
    pub place: u64,
}

impl Refusal {
    // The number by which users know the refusal.
    pub fn number(self) -> u8
        ensures { result ≡ number_of self }
    {
        self as u8
    }
}

// Its number.
impl fmt::Display for Refusal {
    ghost output = { λ r. Some (number_text r) };

    fn fmt<W: fmt::Write>(&self, f: &mut fmt::Formatter<W>) -> fmt::Result {
        let number = self.number();
        write!(f, "{number}")
    }
}

impl Fault {
    // A fault from its three parts; a place in memory is a `usize`.
    pub fn at(refusal: Refusal, layer: Layer, place: usize) -> Fault
        ensures { result ≡ fault_at refusal layer place }
    {
        Fault {
            refusal,
            layer,
            place: place as u64,
        }
    }
}

// Its number and its place.
impl fmt::Display for Fault {
    ghost output = { λ e. Some (refused_text e) };

    fn fmt<W: fmt::Write>(&self, f: &mut fmt::Formatter<W>) -> fmt::Result {
        let number = self.refusal.number();
        let place = self.place;
        write!(f, "refused: {number} at {place}")
    }
}

impl Error for Fault {}
