//! The parts of a scheme: symbols with their visits, attributes, and productions with their rules and steps.
ghost use Rattle.std.specs.Prelude.{◌≡◌};

mod lookup;
mod steps;

/// The number of a visit, from 1. Of a symbol: the number of its last visit.
#[derive(Clone, Copy, PartialEq, Eq, PartialOrd, Ord)]
pub struct VisitNumber(pub u8);

impl From<VisitNumber> for usize {
    ghost from_gives = { λ v r. r ≡ v.0 };

    fn from(visit: VisitNumber) -> usize {
        usize::from(visit.0)
    }
}

/// The number of a child in its production, from 1.
#[derive(Clone, Copy, PartialEq, Eq)]
pub struct ChildNumber(pub u8);

// The child's position.
impl From<ChildNumber> for usize {
    ghost from_gives = { λ k r. r ≡ k.0 };

    fn from(child: ChildNumber) -> usize {
        usize::from(child.0)
    }
}

#[derive(Clone, Copy, PartialEq, Eq)]
pub enum Side {
    Inherited,
    Synthesized,
}

/// A figure of a symbol, known before (inherited) or by the end of (synthesized) its visit.
#[derive(Clone, Copy, PartialEq, Eq)]
pub struct Attribute {
    pub symbol: usize,
    pub side: Side,
    pub visit: VisitNumber,
}

/// A position of a production with an attribute of its symbol: 0 is the left symbol, 1 to 6 are the children.
/// The position is a number, as words and definitions give it: an enum of the left symbol and the children would have a second name for position 0, child 0.
#[derive(Clone, Copy, PartialEq, Eq)]
pub struct Occurrence {
    pub position: usize,
    pub attribute: usize,
}

/// Rule number 0 copies its argument; any other number is the rule set's.
#[derive(Drop)]
pub struct Rule {
    pub number: u8,
    pub target: Occurrence,
    pub arguments: Vec<Occurrence>,
}

#[derive(Clone, Copy, PartialEq, Eq)]
pub enum Step {
    Eval(usize),
    Visit(ChildNumber, VisitNumber),
    Leave(VisitNumber),
}

#[derive(Drop)]
pub struct Production {
    pub left: usize,
    pub children: Vec<usize>,
    pub rules: Vec<Rule>,
    pub steps: Vec<Step>,
}

/// A scheme's symbols, by their last visits, its attributes and its productions.
#[derive(Drop)]
pub struct Grammar {
    pub visits: Vec<VisitNumber>,
    pub attributes: Vec<Attribute>,
    pub productions: Vec<Production>,
}

/// A production with its grammar, in which its occurrences have attributes.
#[derive(Clone, Copy)]
pub struct Scope<'g> {
    pub grammar: &'g Grammar,
    pub production: &'g Production,
}
