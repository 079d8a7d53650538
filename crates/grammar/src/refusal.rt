ghost use Rattle.grammar.specs.declared.refusal.Refusal.TheVariants.{Memory};
ghost use Rattle.std.specs.Prelude.{◌≡◌};

use std::alloc::{AllocError, AllocFailed};

mod text;

pub use text::lines_stand;

/// Why some words are no scheme. Each case but the first has a number, and holds what that number names.
#[derive(Clone, Copy, PartialEq, Eq, Debug)]
pub enum Refusal {
    /// there was not enough memory to read or plan it
    Memory,
    /// 8: the bytes are not a multiple of four
    UnevenBytes,
    /// 1: there are no words
    NoWords,
    /// 2: there are more than 4,096 words
    TooManyWords,
    /// 3: the word's kind is out of order, or, past the last word, the end word is missing
    OutOfOrder { word: usize },
    /// 4: the word passes a limit on how many there may be of its kind
    OverLimit { word: usize },
    /// 5: a field of the word is out of its range, or a bit is set that is none of its fields'
    BadField { word: usize },
    /// 6: the word names a thing that is absent, an attribute of another symbol or a visit above the symbol's
    Absent { word: usize },
    /// 7: the word's target is a used occurrence, or its argument a defined one
    WrongSort { word: usize },
    /// 10: the root symbol has not exactly one visit, has an inherited attribute or is a child
    BadRoot { symbol: usize },
    /// 11: the symbol derives no finite tree
    NoFiniteTree { symbol: usize },
    /// 12: the symbol is out of reach of the root symbol
    OutOfReach { symbol: usize },
    /// 13: a defined occurrence of the production has not exactly one rule
    NotRuledOnce { production: usize },
    /// 14: a rule of the production has not exactly one EVAL
    NotEvaluatedOnce { production: usize },
    /// 15: a child's visits or the leaves are not each once and rising, or the last step is no LEAVE
    BadSequence { production: usize },
    /// 16: the step needs what is not known by then
    TooEarly { production: usize, step: usize },
}

// The two errors of an allocation are two types, and the check refuses an impl that a macro of this repository writes: so there are two impls.
impl From<AllocError> for Refusal {
    ghost from_gives = { λ _ r. r ≡ Memory };

    fn from(_e: AllocError) -> Refusal {
        Refusal::Memory
    }
}

impl<T: Drop> From<AllocFailed<T>> for Refusal {
    ghost from_gives = { λ _ r. r ≡ Memory };

    fn from(_e: AllocFailed<T>) -> Refusal {
        Refusal::Memory
    }
}
