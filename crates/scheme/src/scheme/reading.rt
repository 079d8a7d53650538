//! Reads a scheme from its words, or from their bytes.
ghost use Rattle.std.specs.Prelude.{◌≡◌, ◌%◌, ℕ, List, length, map, IfOk, Err, ◌≢◌};
ghost use Rattle.std.specs.Int.{from_be_bytes, w32};
ghost use Rattle.model.specs.Formed.{Formed, Limited};
ghost use Rattle.model.specs.Lawful.{Lawful};
ghost use Rattle.model.specs.Words.{from_bytes};
ghost use Rattle.grammar.specs.Views.{grammar_of};
ghost use Rattle.scheme.specs.Verdicts.{SizeJudged};
ghost use Rattle.scheme.specs.Whole.{Judged, scheme_of};
ghost use Rattle.grammar.specs.declared.refusal.Refusal.TheVariants.{UnevenBytes};

use super::Scheme;
use crate::checks::judge_scheme;
use grammar::{Grammar, Refusal};
use reader::read_grammar;
use std::alloc::{AllocError, Global};

// The most words that a scheme has.
const MOST_WORDS: usize = 4096;

// Whether a scheme can have so many words.
fn check_size(words: usize) -> Result<(), Refusal>
    ensures { (ws : List ℕ) → length ws ≡ words → SizeJudged ws result }
{
    match words {
        0 => Err(Refusal::NoWords),
        1..=MOST_WORDS => Ok(()),
        _ => Err(Refusal::TooManyWords),
    }
}

// The words of four bytes each, the high byte first.
fn words_of(alloc: Global, chunks: &[[u8; 4]]) -> Result<Vec<u32>, AllocError>
    ensures { IfOk result (λ v. v.items ≡ map (from_be_bytes w32) chunks.now) }
{
    chunks
        .iter()
        .map(|word| u32::from_be_bytes(*word))
        .collect(alloc)
}

impl Scheme {
    /// The scheme that the words say, or the first cause for refusal in the order of checking.
    pub fn read(alloc: Global, words: &[u32]) -> Result<Scheme, Refusal>
        ensures { Judged words.now result }
    {
        check_size(words.len())?;
        let grammar = read_grammar(alloc, words)?;
        judge_scheme(alloc, &grammar)?;
        Ok(Scheme { grammar })
    }

    /// The same from bytes, four a word and the high byte first.
    pub fn from_bytes(alloc: Global, bytes: &[u8]) -> Result<Scheme, Refusal>
        ensures uneven { (length bytes.now % 4 ≢ 0) → result ≡ Err UnevenBytes }
        ensures whole { length bytes.now % 4 ≡ 0 → Judged (from_bytes bytes.now) result }
    {
        let (chunks, rest) = bytes.as_chunks::<4>();
        if !rest.is_empty() {
            return Err(Refusal::UnevenBytes);
        }
        // Before memory is taken for the words.
        check_size(chunks.len())?;
        let words = words_of(alloc, chunks)?;
        Scheme::read(alloc, &words)
    }

    /// What the scheme is made of, and what is known of every scheme.
    pub fn grammar(&self) -> &Grammar
        ensures value { grammar_of result.now ≡ scheme_of self.now }
        ensures formed { Formed (scheme_of self.now) }
        ensures limited { Limited (scheme_of self.now) }
        ensures lawful { Lawful (scheme_of self.now) }
    {
        &self.grammar
    }
}
