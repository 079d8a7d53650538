//! Reads a scheme's words entry by entry.
ghost use Rattle.std.specs.Prelude.{◌≡◌, [], length};
ghost use Rattle.model.specs.Words.{at_first, read_from};
ghost use Rattle.reader.specs.Entries.{part_of};
ghost use Rattle.reader.specs.Reading.{sofar_of, Took, Reads, ReadAs, Ends};

use super::{Draft, Next};
use crate::entries::Entries;
use crate::entry::Entry;
use crate::part::Part;
use grammar::{Grammar, Production, Refusal};
use std::alloc::Global;

impl Draft {
    // A draft of which nothing has been read.
    fn new(alloc: Global) -> Draft
        ensures { sofar_of result ≡ at_first }
    {
        let whole = Grammar {
            visits: Vec::new(alloc),
            attributes: Vec::new(alloc),
            productions: Vec::new(alloc),
        };
        Draft {
            alloc,
            whole,
            current: Production::new(alloc, 0),
            next: Next::FirstSymbol,
        }
    }

    // The word at this place: it is taken, or refused by the first cause there is.
    fn take_word(&mut self, place: usize, word: u32) -> Result<(), Refusal>
        ensures { Took (sofar_of self.old) place word result (sofar_of self.new) }
    {
        let form = self.judge(place, word)?;
        self.add(form)
    }

    // Each word of the part in turn.
    fn take_part(&mut self, part: Part<'_>) -> Result<(), Refusal>
        ensures { Reads (sofar_of self.old) part.entry.place part.entry.words.now result (sofar_of self.new) }
    {
        for (i, word) in part.words.iter().enumerate() {
            self.take_word(part.place + i, *word)?;
        }
        Ok(())
    }

    // A rule's word, and then its arguments', by a slice pattern, as the project has it for a rule's entry; `take_part` would take it too.
    fn take_rule(&mut self, part: Part<'_>) -> Result<(), Refusal>
        ensures { Reads (sofar_of self.old) part.entry.place part.entry.words.now result (sofar_of self.new) }
    {
        match part.words {
            [] => Ok(()),
            [rule, arguments @ ..] => {
                self.take_word(part.place, *rule)?;
                self.take_part(Part {
                    place: part.place + 1,
                    words: arguments,
                })
            }
        }
    }

    // Each word of the entry in turn.
    fn take_entry(&mut self, entry: Entry<'_>) -> Result<(), Refusal>
        ensures { Reads (sofar_of self.old) (part_of entry.entry).place (part_of entry.entry).words.now result (sofar_of self.new) }
    {
        match entry {
            Entry::Rule(part) => self.take_rule(part),
            Entry::Symbol(part)
            | Entry::Production(part)
            | Entry::Step(part)
            | Entry::Other(part) => self.take_part(part),
        }
    }

    // The grammar that was read from `words` words, if the end word was among them.
    fn finish(self, words: usize) -> Result<Grammar, Refusal>
        ensures { Ends (read_from [] words (sofar_of self)) result }
    {
        match self.next {
            Next::Nothing => Ok(self.whole),
            _ => Err(Refusal::OutOfOrder { word: words }),
        }
    }
}

/// The grammar that the words say, word by word.
pub fn read_grammar(alloc: Global, words: &[u32]) -> Result<Grammar, Refusal>
    ensures { ReadAs words.now result }
{
    let mut draft = Draft::new(alloc);
    for entry in Entries::of(words) {
        draft.take_entry(entry)?;
    }
    draft.finish(words.len())
}
