// The numbered refusals of the calls.
#![tactic(auto)]

ghost use Rattle.std.specs.Prelude.{◌≡◌};
ghost use Rattle.refusal.specs.Refusal.{number_of, code_of};

use std::error::Error;
use std::fmt;

// Why a call refuses, in the order of the numbers 1 to 16.
#[derive(Clone, Copy, Debug, PartialEq, Eq)]
pub enum Refusal {
    Config,
    Geometry,
    Plane,
    Sample,
    Predictor,
    Rate,
    Block,
    Runs,
    Room,
    BinsEnd,
    BinClass,
    Value,
    TooManyColors,
    TooManyEscapes,
    Smoothing,
    InputFile,
}

// What a reader refuses, and the place of the bin or value.
#[derive(Clone, Copy, Debug, PartialEq, Eq)]
pub struct Refused {
    pub refusal: Refusal,
    pub place: usize,
}

impl Refusal {
    // The refusal of what stands at a place.
    pub fn at(self, place: usize) -> Refused
        ensures refusal { result.refusal ≡ self }
        ensures place { result.place ≡ place }
    {
        Refused {
            refusal: self,
            place,
        }
    }
}

impl From<Refusal> for u8 {
    ghost from_gives = { λ refusal n. n ≡ number_of refusal };

    // The refusal's number.
    fn from(refusal: Refusal) -> u8 {
        match refusal {
            Refusal::Config => 1,
            Refusal::Geometry => 2,
            Refusal::Plane => 3,
            Refusal::Sample => 4,
            Refusal::Predictor => 5,
            Refusal::Rate => 6,
            Refusal::Block => 7,
            Refusal::Runs => 8,
            Refusal::Room => 9,
            Refusal::BinsEnd => 10,
            Refusal::BinClass => 11,
            Refusal::Value => 12,
            Refusal::TooManyColors => 13,
            Refusal::TooManyEscapes => 14,
            Refusal::Smoothing => 15,
            Refusal::InputFile => 16,
        }
    }
}

// The number of an answer: 0 where there is no refusal.
pub fn code(answer: Result<(), Refusal>) -> u8
    ensures { result ≡ code_of answer }
{
    match answer {
        Ok(()) => 0,
        Err(refusal) => u8::from(refusal),
    }
}

impl fmt::Display for Refusal {
    fn fmt<W: fmt::Write>(&self, f: &mut fmt::Formatter<W>) -> fmt::Result {
        f.write_str(match self {
            Refusal::Config =>
                "component count and format disagree, or depth or QP outside the domain",
            Refusal::Geometry => "size, picture side, origin or evenness outside the domain",
            Refusal::Plane => "a plane is shorter than its sides ask",
            Refusal::Sample => "a sample the block reads exceeds its depth",
            Refusal::Predictor => "the predictor or its limit is outside the domain",
            Refusal::Rate => "one of the 18 rates is not a number from 0 to 64",
            Refusal::Block => "the block does not hold together",
            Refusal::Runs =>
                "the run list does not replay to the block's indices under the run rules",
            Refusal::Room => "the lent list is shorter than the runs or bins to be put in it",
            Refusal::BinsEnd => "the bins end where one is due",
            Refusal::BinClass => "a bin is of another class than the one due",
            Refusal::Value => "a value read is outside its range",
            Refusal::TooManyColors => "more than 128 distinct colours, or distinct × 2 > n",
            Refusal::TooManyEscapes => "escapes × 4 > n",
            Refusal::Smoothing => "smoothing asked of a transposed or lossless block",
            Refusal::InputFile => "the program's input file is malformed",
        })
    }
}

impl Error for Refusal {}
