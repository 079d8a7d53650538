//! What one word says: the fields of its kind.
ghost use Rattle.std.proofs.Math.Option.{some};
ghost use Rattle.std.specs.Prelude.{◌≡◌, ◌<◌, ◌≤◌, ◌%◌, ◌^◌, nat_eq};
ghost use Rattle.model.specs.Words as Words;
ghost use Rattle.model.specs.Words.{fields, between};
ghost use Rattle.grammar.specs.Views.{visit_of};
ghost use Rattle.reader.specs.Kinds.{number_of};
ghost use Rattle.reader.specs.Forms.{form_of, Says};

use crate::kind::Kind;
use grammar::{ChildNumber, Occurrence, Step, VisitNumber};

// The most children that a production has; an occurrence's position is at most the last child's.
const MOST_CHILDREN: usize = 6;

// The most arguments that a rule has.
const MOST_ARGUMENTS: usize = 3;

// The last visit that a symbol may have.
const LAST_VISIT: u8 = 4;

#[derive(Clone, Copy)]
pub enum Form {
    /// a symbol, with the number of its last visit
    Symbol(VisitNumber),
    /// an attribute of the last symbol; the side is 0 for inherited and 1 for synthesized
    Attribute {
        // a number as the word has it, since 2 to 15 are refused only after the kind and the limits: an Option of a side would be
        // taken apart once more where the attribute is added, when none can be left
        side: u8,
        visit: VisitNumber,
    },
    /// a production, with its left symbol and the number of its children
    Production {
        left: usize,
        children: usize,
    },
    /// a child's symbol
    Child(usize),
    /// a rule, with its number, its target and the number of its arguments
    Rule {
        number: u8,
        target: Occurrence,
        arguments: usize,
    },
    /// an argument of the last rule
    Argument(Occurrence),
    /// a step of the production
    Step(Step),
    /// the end of the scheme
    End,
}

impl Form {
    /// What a word of that kind says.
    pub(crate) fn of(kind: Kind, word: u32) -> Form
        ensures { some (form_of result) ≡ fields (number_of kind) word }
    {
        match kind {
            Kind::Symbol => Form::Symbol(VisitNumber(field::<4>(word, 24))),
            Kind::Attribute => Form::Attribute {
                side: field::<4>(word, 24),
                visit: VisitNumber(field::<4>(word, 20)),
            },
            Kind::Production => Form::Production {
                left: usize::from(field::<8>(word, 20)),
                children: usize::from(field::<4>(word, 16)),
            },
            Kind::Child => Form::Child(usize::from(field::<8>(word, 20))),
            Kind::Rule => Form::Rule {
                number: field::<8>(word, 20),
                target: Occurrence {
                    position: usize::from(field::<4>(word, 16)),
                    attribute: usize::from(field::<8>(word, 8)),
                },
                arguments: usize::from(field::<4>(word, 4)),
            },
            Kind::Argument => Form::Argument(Occurrence {
                position: usize::from(field::<4>(word, 24)),
                attribute: usize::from(field::<8>(word, 16)),
            }),
            Kind::Eval => Form::Step(Step::Eval(usize::from(field::<8>(word, 20)))),
            Kind::Visit => Form::Step(Step::Visit(
                ChildNumber(field::<4>(word, 24)),
                VisitNumber(field::<4>(word, 20)),
            )),
            Kind::Leave => Form::Step(Step::Leave(VisitNumber(field::<4>(word, 24)))),
            Kind::End => Form::End,
        }
    }

    /// Each field of the word is in its range, and no bit below the fields is set.
    #[tactic(auto, using(crate::proofs::RuleWord::well_rule))]
    pub(crate) fn is_well_made(self, word: u32) -> bool
        requires { Says word self }
        ensures { result ≡ Words.well_made (form_of self) word }
    {
        match self {
            Form::Symbol(visits) => is_visit(visits) && ends_in_zeros(word, 24),
            Form::Attribute { side, visit } => {
                side <= 1 && is_visit(visit) && ends_in_zeros(word, 20)
            }
            Form::Production { children, .. } => {
                children <= MOST_CHILDREN && ends_in_zeros(word, 16)
            }
            Form::Child(_) | Form::Step(Step::Eval(_)) => ends_in_zeros(word, 20),
            Form::Rule {
                target,
                arguments,
                ..
            } => {
                target.position <= MOST_CHILDREN
                    && arguments <= MOST_ARGUMENTS
                    && ends_in_zeros(word, 4)
            }
            Form::Argument(argument) => {
                argument.position <= MOST_CHILDREN && ends_in_zeros(word, 16)
            }
            Form::Step(Step::Visit(child, visit)) => {
                (1..=MOST_CHILDREN).contains(&usize::from(child))
                    && is_visit(visit)
                    && ends_in_zeros(word, 20)
            }
            Form::Step(Step::Leave(visit)) => is_visit(visit) && ends_in_zeros(word, 24),
            Form::End => ends_in_zeros(word, 28),
        }
    }
}

// `BITS` bits of the word, from bit `low` on.
fn field<const BITS: u32>(word: u32, low: u32) -> u8
    requires few { BITS ≤ 8 }
    requires within { low < 32 }
    ensures { result ≡ Words.field word low BITS }
{
    // less than 2 ^ BITS, so it fits
    ((word >> low) % (1 << BITS)) as u8
}

// A symbol's visits are numbered from 1, the last at most `LAST_VISIT`.
fn is_visit(visit: VisitNumber) -> bool
    ensures { result ≡ between 1 4 (visit_of visit) }
{
    (1..=LAST_VISIT).contains(&visit.0)
}

// The lowest `bits` bits of the word are zero.
fn ends_in_zeros(word: u32, bits: u32) -> bool
    requires { bits < 32 }
    ensures { result ≡ nat_eq (word % 2 ^ bits) 0 }
{
    word % (1 << bits) == 0
}
