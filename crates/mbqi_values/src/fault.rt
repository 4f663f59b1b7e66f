ghost use Rattle.std.specs.Prelude.{◌≡◌, Some};
ghost use Rattle.mbqi_values.specs.FaultKind.{name_of};
ghost use Rattle.mbqi_values.specs.Refusal.{refusal_text};
ghost use Rattle.mbqi_values.specs.declared.fault.ReadError.TheVariants.{Memory};

use std::alloc::{AllocError, AllocFailed};
use std::fmt;
use thiserror::Error;

/// Why a text is refused. The first fault in reading order counts.
#[derive(Clone, Copy, Debug, PartialEq, Eq)]
pub enum FaultKind {
    /// A byte that starts no token, or that the content of a string or quoted symbol doesn't allow.
    BadByte,
    /// A leading zero, a numeral and a point without a digit, or a literal directly followed by a symbol
    /// character.
    BadNumeral,
    /// A quoted symbol without its closing bar.
    OpenQuote,
    /// A string without its closing quote.
    OpenString,
    /// A closing bracket with nothing open.
    Unopened,
    /// The text ends with open brackets.
    Unclosed,
    /// More than 1,000 brackets are open at one place, or a term is deeper than 1,000.
    TooDeep,
    /// A form of another shape than the language has.
    BadForm,
    /// A form of SMT-LIB that is outside this profile.
    Unsupported,
    /// A declared, defined or bound name that is reserved.
    ReservedName,
    /// A name or label that stands twice where names differ.
    Twice,
    /// A name without a binding.
    UnknownName,
    /// Another number of arguments than the symbol takes.
    WrongCount,
    /// A sort that the place doesn't take.
    WrongSort,
    /// A numeral past its limit.
    NumeralTooWide,
    /// The number of a sum or a difference past its limit.
    OffsetTooWide,
    /// A sum or difference of other terms than this profile has.
    NotDifference,
    /// A quantifier under an equality, `xor`, `distinct` or in a condition.
    QuantifierPlace,
    /// A quantified variable inside an array term.
    BoundArray,
    /// Knots or rows of a model text that don't rise.
    Order,
    /// A line of a model text that is missing.
    Missing,
    /// Bytes that differ from the one spelling of what was read.
    Spelling,
}

impl FaultKind {
    /// The kind's name in a message: that of its variant.
    pub fn name(self) -> &'static str
        ensures { result.now ≡ name_of self }
    {
        match self {
            FaultKind::BadByte => "BadByte",
            FaultKind::BadNumeral => "BadNumeral",
            FaultKind::OpenQuote => "OpenQuote",
            FaultKind::OpenString => "OpenString",
            FaultKind::Unopened => "Unopened",
            FaultKind::Unclosed => "Unclosed",
            FaultKind::TooDeep => "TooDeep",
            FaultKind::BadForm => "BadForm",
            FaultKind::Unsupported => "Unsupported",
            FaultKind::ReservedName => "ReservedName",
            FaultKind::Twice => "Twice",
            FaultKind::UnknownName => "UnknownName",
            FaultKind::WrongCount => "WrongCount",
            FaultKind::WrongSort => "WrongSort",
            FaultKind::NumeralTooWide => "NumeralTooWide",
            FaultKind::OffsetTooWide => "OffsetTooWide",
            FaultKind::NotDifference => "NotDifference",
            FaultKind::QuantifierPlace => "QuantifierPlace",
            FaultKind::BoundArray => "BoundArray",
            FaultKind::Order => "Order",
            FaultKind::Missing => "Missing",
            FaultKind::Spelling => "Spelling",
        }
    }
}

impl fmt::Display for FaultKind {
    ghost output = { λ kind. Some (name_of kind) };

    fn fmt<W: fmt::Write>(&self, f: &mut fmt::Formatter<W>) -> fmt::Result {
        f.write_str(self.name())
    }
}

/// Where a text is refused, as a byte offset from 0, and why.
#[derive(Clone, Copy, Debug, PartialEq, Eq)]
pub struct Refusal {
    pub at: usize,
    pub kind: FaultKind,
}

impl fmt::Display for Refusal {
    ghost output = { λ refusal. Some (refusal_text refusal) };

    fn fmt<W: fmt::Write>(&self, f: &mut fmt::Formatter<W>) -> fmt::Result {
        write!(f, "{}: {}", self.at, self.kind)
    }
}

/// What a reader of text answers in place of a value.
#[derive(Debug, Drop, Error)]
pub enum ReadError {
    /// The text is refused, at its first fault.
    #[error("refused at {0}")]
    Refused(Refusal),
    /// Memory ran out.
    #[error("out of memory")]
    Memory,
}

impl From<AllocError> for ReadError {
    ghost from_gives = { λ _ e. e ≡ Memory };

    fn from(_error: AllocError) -> ReadError {
        ReadError::Memory
    }
}

impl<T: Drop> From<AllocFailed<T>> for ReadError {
    ghost from_gives = { λ _ e. e ≡ Memory };

    fn from(_error: AllocFailed<T>) -> ReadError {
        ReadError::Memory
    }
}
