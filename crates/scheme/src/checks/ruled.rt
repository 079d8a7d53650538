//! Each defined occurrence of a production has exactly one rule.
ghost use Rattle.model.specs.Lawful.{Ruled, Defined};
ghost use Rattle.model.specs.Lists.{count};
ghost use Rattle.model.specs.Scheme.{same_occurrence};
ghost use Rattle.scheme.specs.Ruling.{RuledOnce, side_defined};
ghost use Rattle.grammar.specs.Views.{scheme_in, production_in, occurrence_of, rule_of, side_of};
ghost use Rattle.std.specs.Prelude.{◌≡◌, ℕ, map, Decides};

use grammar::{Occurrence, Rule, Scope, Side};

pub(super) fn is_ruled(scope: &Scope<'_>) -> bool
    ensures { Decides result (Ruled (scheme_in scope.now) (production_in scope.now)) }
{
    // Positions and attributes are counted, here and below: an occurrence is asked about by its two numbers, and what `enumerate` would give beside them is not used.
    (0..=scope.production.children.len()).all(|position| is_ruled_at(scope, position))
}

// Each defined occurrence at the position has exactly one rule.
fn is_ruled_at(scope: &Scope<'_>, position: usize) -> bool
    ensures { Decides result ((a : ℕ) → RuledOnce (scheme_in scope.now) (production_in scope.now) (record { position = position; attribute = a })) }
{
    (0..scope.grammar.attributes.len()).all(|attribute| {
        let o = Occurrence {
            position,
            attribute,
        };
        is_ruled_once(scope, o)
    })
}

// The occurrence has exactly one rule, if it is a defined one.
fn is_ruled_once(scope: &Scope<'_>, o: Occurrence) -> bool
    ensures { Decides result (RuledOnce (scheme_in scope.now) (production_in scope.now) (occurrence_of o)) }
{
    !is_defined(scope, o) || rules_for(&scope.production.rules, o) == 1
}

// How many rules have the occurrence as their target.
fn rules_for(rules: &[Rule], o: Occurrence) -> usize
    ensures { result ≡ count (λ q. same_occurrence (occurrence_of o) q.target) (map rule_of rules.now) }
{
    rules.iter().filter(|rule| o == rule.target).count()
}

// The attribute is one of the symbol at the position, on the side that is defined there.
fn is_defined(scope: &Scope<'_>, o: Occurrence) -> bool
    ensures { Decides result (Defined (scheme_in scope.now) (production_in scope.now) (occurrence_of o)) }
{
    scope
        .attribute_at(o)
        .is_some_and(|a| a.side == side_defined(o.position))
}

// Synthesized at the left symbol, inherited at a child.
fn side_defined(position: usize) -> Side
    ensures { side_of result ≡ side_defined position }
{
    if position == 0 {
        Side::Synthesized
    } else {
        Side::Inherited
    }
}
