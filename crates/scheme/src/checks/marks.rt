//! Marks on symbols, carried along the productions until no production carries one further.
ghost use Rattle.std.specs.Prelude.{◌≡◌, ℕ, ◌<◌, true, length, Decides, IfOk};
ghost use Rattle.model.specs.Checking.{Keeps};
ghost use Rattle.model.specs.Formed.{Formed};
ghost use Rattle.model.specs.Lists.{Has};
ghost use Rattle.scheme.specs.Checked.{FirstFailing};
ghost use Rattle.scheme.specs.Marks.{marked, AllMarked, Placed, Only, Grown, Followed, Meant, asked, Round, Full};
ghost use Rattle.grammar.specs.Views.{production_of, grammar_of};

use super::spread::Spread;
use grammar::{Grammar, Production};
use std::alloc::{AllocError, Global};
use std::mem::replace;

// Marks on the symbols of a grammar, each on a symbol that it may stand on.
#[derive(Drop)]
struct Marks<'g> {
    grammar: &'g Grammar,
    way: Spread,
    marked: Vec<bool>,
    ghost formed: { ∥ Formed (grammar_of grammar.now) ∥₁ },
    ghost size: { length marked.items ≡ length (grammar_of grammar.now).visits },
    ghost only: { ∥ Only (Meant way (grammar_of grammar.now)) marked.items ∥₁ },
}

impl Marks<'_> {
    // One round over all productions. It answers whether a mark was added.
    fn round(&mut self) -> bool
        ensures round { Round self.old.way (grammar_of self.old.grammar.now) self.old.marked.items self.new.marked.items result (length (grammar_of self.old.grammar.now).productions) }
        ensures same { (self.new.grammar ≡ self.old.grammar) × (self.new.way ≡ self.old.way) }
    {
        // No `any`: each production is followed, also after the first new mark. No `fold`: its closure would change the marks.
        let mut added = false;
        for p in &self.grammar.productions {
            added |= follow(&mut self.marked, p, self.way);
        }
        added
    }

    // Rounds until one adds nothing.
    fn close(&mut self)
        ensures full { Full self.old.way (grammar_of self.old.grammar.now) self.old.marked.items self.new.marked.items }
        ensures same { (self.new.grammar ≡ self.old.grammar) × (self.new.way ≡ self.old.way) }
    {
        while self.round() {}
    }

    // The lowest symbol with no mark.
    fn first_unmarked(&self) -> Option<usize>
        ensures { FirstFailing (λ x. (x < length self.now.marked.items → marked self.now.marked.items x ≡ true)) result }
    {
        self.marked.iter().position(|marked| !*marked)
    }
}

// Marks a symbol, and answers whether it had no mark.
fn mark(marks: &mut [bool], symbol: usize) -> bool
    requires { symbol < length marks.old }
    ensures grown { Grown (λ x. x ≡ symbol) marks.old marks.new result }
    ensures here { marked marks.new symbol ≡ true }
{
    !replace(&mut marks[symbol], true)
}

// Whether all the symbols are marked. That they have places among the marks each of the next three asks for itself: `Marks`, which holds it of a whole grammar,
// is taken apart for them.
fn all_marked(marks: &[bool], symbols: &[usize]) -> bool
    requires { Placed marks.now symbols.now }
    ensures { Decides result (AllMarked marks.now symbols.now) }
{
    symbols.iter().all(|x| marks[*x])
}

// Marks all the symbols, and answers whether one had no mark.
fn mark_all(marks: &mut [bool], symbols: &[usize]) -> bool
    requires { Placed marks.old symbols.now }
    ensures grown { Grown (λ x. (k : ℕ) × Has symbols.now k x) marks.old marks.new result }
    ensures here { AllMarked marks.new symbols.now }
{
    // No `any`: each symbol is marked, also after the first that had no mark. No `fold`: its closure would change the marks.
    let mut added = false;
    for x in symbols {
        added |= mark(marks, *x);
    }
    added
}

// One production. It answers whether a mark was added.
fn follow(marks: &mut [bool], p: &Production, way: Spread) -> bool
    requires left { p.now.left < length marks.old }
    requires children { Placed marks.old p.now.children.items }
    ensures { Followed way (production_of p.now) marks.old marks.new result }
{
    match way {
        Spread::Up => all_marked(marks, &p.children) && mark(marks, p.left),
        Spread::Down => marks[p.left] && mark_all(marks, &p.children),
    }
}

/// The lowest symbol that the marks do not come to: up from the productions without children, or down from the root.
pub(super) fn first_left_out(
    alloc: Global,
    g: &Grammar,
    way: Spread,
) -> Result<Option<usize>, AllocError>
    requires { Formed (grammar_of g.now) }
    ensures { IfOk result (λ o. FirstFailing (λ x. Keeps (grammar_of g.now) (asked way x)) o) }
{
    if g.visits.is_empty() {
        return Ok(None);
    }
    let mut marked = vec![in alloc; false; g.visits.len()]?;
    marked[0] = way == Spread::Down;
    let mut marks = Marks {
        grammar: g,
        way,
        marked,
    };
    marks.close();
    Ok(marks.first_unmarked())
}
