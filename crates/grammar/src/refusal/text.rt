//! A refusal's number, and the line that says it.
ghost use Rattle.grammar.specs.Refusals.{number_of, line_of, LinesSpelt};
ghost use Rattle.std.specs.Prelude.{◌≡◌, Some};

use super::Refusal;
use std::fmt;

impl Refusal {
    /// The number, which want of memory has not.
    pub fn number(self) -> Option<u8>
        ensures { result ≡ number_of self }
    {
        match self {
            Refusal::Memory => None,
            Refusal::UnevenBytes => Some(8),
            Refusal::NoWords => Some(1),
            Refusal::TooManyWords => Some(2),
            Refusal::OutOfOrder { .. } => Some(3),
            Refusal::OverLimit { .. } => Some(4),
            Refusal::BadField { .. } => Some(5),
            Refusal::Absent { .. } => Some(6),
            Refusal::WrongSort { .. } => Some(7),
            Refusal::BadRoot { .. } => Some(10),
            Refusal::NoFiniteTree { .. } => Some(11),
            Refusal::OutOfReach { .. } => Some(12),
            Refusal::NotRuledOnce { .. } => Some(13),
            Refusal::NotEvaluatedOnce { .. } => Some(14),
            Refusal::BadSequence { .. } => Some(15),
            Refusal::TooEarly { .. } => Some(16),
        }
    }
}

// `no`, the number and what it names; `no memory` where there was not enough. The lines spell the numbers once more, and `lines_stand` has it proved
// that they are those of `number`: a line written from the number would need a row of names of its own beside it.
impl fmt::Display for Refusal {
    ghost output = { λ e. Some (line_of e) };

    fn fmt<W: fmt::Write>(&self, f: &mut fmt::Formatter<W>) -> fmt::Result {
        match *self {
            Refusal::Memory => write!(f, "no memory"),
            Refusal::UnevenBytes => write!(f, "no 8"),
            Refusal::NoWords => write!(f, "no 1"),
            Refusal::TooManyWords => write!(f, "no 2"),
            Refusal::OutOfOrder { word } => write!(f, "no 3 {word}"),
            Refusal::OverLimit { word } => write!(f, "no 4 {word}"),
            Refusal::BadField { word } => write!(f, "no 5 {word}"),
            Refusal::Absent { word } => write!(f, "no 6 {word}"),
            Refusal::WrongSort { word } => write!(f, "no 7 {word}"),
            Refusal::BadRoot { symbol } => write!(f, "no 10 {symbol}"),
            Refusal::NoFiniteTree { symbol } => write!(f, "no 11 {symbol}"),
            Refusal::OutOfReach { symbol } => write!(f, "no 12 {symbol}"),
            Refusal::NotRuledOnce { production } => write!(f, "no 13 {production}"),
            Refusal::NotEvaluatedOnce { production } => write!(f, "no 14 {production}"),
            Refusal::BadSequence { production } => write!(f, "no 15 {production}"),
            Refusal::TooEarly { production, step } => write!(f, "no 16 {production} {step}"),
        }
    }
}

/// Each line is `no`, the number and the names, a space before each.
pub fn lines_stand() -> u8
    ensures { LinesSpelt }
{
    0
}
