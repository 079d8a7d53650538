//! In which sections of its symbol an attribute may be given its value or read.
ghost use Rattle.std.specs.Prelude.{◌≡◌, map, IfOk};
ghost use Rattle.model.specs.Spans.{attribute_sections};
ghost use Rattle.model.specs.Tables.{all_sections};
ghost use Rattle.grammar.specs.Views.{attribute_of};
ghost use Rattle.scheme.specs.Whole.{scheme_of};
ghost use Rattle.plan.specs.SectionBounds.{bound_in, bound_of};
ghost use Rattle.plan.specs.Views.{sections_of};

use super::span::Sections;
use grammar::{Attribute, Grammar, Occurrence, Production, Side, Step, VisitNumber};
use scheme::Scheme;
use std::alloc::{AllocError, Global};

// What `pick` makes of the start and the sections of the steps that pass the test.
fn bound_in<T: Fn(&Production, Step) -> bool, P: Fn(usize, usize) -> usize>(
    p: &Production,
    start: usize,
    passes: &T,
    pick: &P,
) -> usize
    requires tested { T.IsAlwaysCallable passes.now }
    requires picked { P.IsAlwaysCallable pick.now }
    ensures { (f : _) (h : _) → ((q : _) (st : _) (b : _) → T.post passes.now q st b → b ≡ f q.now st) → ((m n r : _) → P.post pick.now m n r → r ≡ h m n) → result ≡ bound_in h f start p.now }
{
    p.steps
        .iter()
        .enumerate()
        .filter(|(_, step)| passes(p, **step))
        .fold(start, |bound, (t, _)| pick(bound, p.section(t)))
}

// The same over the productions of a symbol.
fn bound_of<T: Fn(&Production, Step) -> bool, P: Fn(usize, usize) -> usize>(
    g: &Grammar,
    symbol: usize,
    start: usize,
    passes: T,
    pick: P,
) -> usize
    requires tested { T.IsAlwaysCallable passes }
    requires picked { P.IsAlwaysCallable pick }
    ensures { (f : _) (h : _) → ((q : _) (st : _) (b : _) → T.post passes q st b → b ≡ f q.now st) → ((m n r : _) → P.post pick m n r → r ≡ h m n) → result ≡ bound_of h f symbol start g.now.productions.items }
{
    g.productions
        .iter()
        .filter(|p| p.left == symbol)
        .fold(start, |bound, p| bound_in(p, bound, &passes, &pick))
}

// The sections of an attribute. An inherited one is given before its visit, and read up to the last section that reads it; a synthesized one is given from the
// first section that gives it up to its visit.
fn sections_of(scheme: &Scheme, number: usize, attribute: Attribute) -> Sections
    ensures { sections_of result ≡ attribute_sections (scheme_of scheme.now) number (attribute_of attribute) }
{
    let g = scheme.grammar();
    let own = Occurrence {
        position: 0,
        attribute: number,
    };
    let symbol = attribute.symbol;
    let visit = usize::from(attribute.visit);
    // a production has at most 64 steps, so the number of a section fits; `try_from` would give an error that cannot come
    match attribute.side {
        Side::Inherited => {
            let last = bound_of(g, symbol, visit, |p, step| p.reads(step, own), usize::max);
            Sections {
                first: attribute.visit,
                last: VisitNumber(last as u8),
            }
        }
        Side::Synthesized => {
            let first = bound_of(g, symbol, visit, |p, step| p.gives(step, own), usize::min);
            Sections {
                first: VisitNumber(first as u8),
                last: attribute.visit,
            }
        }
    }
}

/// The sections of every attribute, in their order.
pub(crate) fn all_sections(alloc: Global, scheme: &Scheme) -> Result<Vec<Sections>, AllocError>
    ensures { IfOk result (λ v. map sections_of v.items ≡ all_sections (scheme_of scheme.now)) }
{
    scheme
        .grammar()
        .attributes
        .iter()
        .enumerate()
        .map(|(number, attribute)| sections_of(scheme, number, *attribute))
        .collect(alloc)
}
