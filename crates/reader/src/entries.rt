//! Takes a scheme's words apart into entries.
ghost use Rattle.std.specs.Prelude.{◌≡◌, ◌≤◌, length};
ghost use Rattle.std.specs.List.{prefix_len};
ghost use Rattle.reader.specs.Entries.{is_attribute, members};

use crate::entry::Entry;
use crate::form::Form;
use crate::kind::Kind;
use crate::part::Part;

/// The entries of a part, one after the other.
#[derive(Drop)]
pub struct Entries<'a> {
    rest: Part<'a>,
}

impl<'a> Entries<'a> {
    /// The entries of a whole scheme.
    pub(crate) fn of(words: &'a [u32]) -> Entries<'a>
        ensures { (result.rest.place ≡ 0) × (result.rest.words.now ≡ words.now) }
    {
        Entries {
            rest: Part { place: 0, words },
        }
    }
}

impl<'a> Iterator for Entries<'a> {
    ghost use Rattle.std.specs.Iterator.{item_count};
    ghost use Rattle.reader.specs.Entries.{words_left, GivesEntry};

    type Item = Entry<'a>;

    ghost next_gives = { GivesEntry };

    ghost remaining = { item_count words_left };

    fn next(&mut self) -> Option<Entry<'a>> {
        let (head, others) = self.rest.words.split_first()?;
        let (part, rest) = self.rest.split_at(1 + members_of(*head, others));
        self.rest = rest;
        Some(Entry::of(*head, part))
    }
}

// How many of the words that follow a word belong to its entry.
fn members_of(head: u32, others: &[u32]) -> usize
    ensures value { result ≡ members head others.now }
    ensures bound { result ≤ length others.now }
{
    let Some(kind) = Kind::of(head) else {
        return 0;
    };
    match Form::of(kind, head) {
        Form::Symbol(_) => leading_attributes(others),
        Form::Production { children, .. } => children.min(others.len()),
        Form::Rule { arguments, .. } => arguments.min(others.len()),
        _ => 0,
    }
}

// How many attribute words the words begin with.
fn leading_attributes(words: &[u32]) -> usize
    ensures value { result ≡ prefix_len is_attribute words.now }
    ensures bound { result ≤ length words.now }
{
    words
        .iter()
        .take_while(|word| Kind::of(**word) == Some(Kind::Attribute))
        .count()
}
