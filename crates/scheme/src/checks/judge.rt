//! Every rule of a grammar, in the order of checking.
ghost use Rattle.model.specs.Lists.{Has};
ghost use Rattle.model.specs.Formed.{Formed};
ghost use Rattle.scheme.specs.Verdicts.{ProductionJudged, SchemeJudged};
ghost use Rattle.grammar.specs.Views.{grammar_of, scheme_in, production_in};

use super::evaluated::is_evaluated;
use super::marks::first_left_out;
use super::ordered::first_early;
use super::root::is_rooted;
use super::ruled::is_ruled;
use super::sequenced::is_sequenced;
use super::spread::Spread;
use grammar::{Grammar, Refusal, Scope};
use std::alloc::Global;

// The production, at its place in the grammar.
fn judge_production(scope: &Scope<'_>, production: usize) -> Result<(), Refusal>
    requires { Has (scheme_in scope.now).productions production (production_in scope.now) }
    ensures { ProductionJudged (scheme_in scope.now) production result }
{
    if !is_ruled(scope) {
        return Err(Refusal::NotRuledOnce { production });
    }
    if !is_evaluated(scope.production) {
        return Err(Refusal::NotEvaluatedOnce { production });
    }
    if !is_sequenced(scope) {
        return Err(Refusal::BadSequence { production });
    }
    if let Some(step) = first_early(scope) {
        return Err(Refusal::TooEarly { production, step });
    }
    Ok(())
}

/// The first rule that is broken, if one is.
pub(crate) fn judge_scheme(alloc: Global, g: &Grammar) -> Result<(), Refusal>
    requires { Formed (grammar_of g.now) }
    ensures { SchemeJudged (grammar_of g.now) result }
{
    if !is_rooted(g) {
        return Err(Refusal::BadRoot { symbol: 0 });
    }
    if let Some(symbol) = first_left_out(alloc, g, Spread::Up)? {
        return Err(Refusal::NoFiniteTree { symbol });
    }
    if let Some(symbol) = first_left_out(alloc, g, Spread::Down)? {
        return Err(Refusal::OutOfReach { symbol });
    }
    for (number, production) in g.productions.iter().enumerate() {
        let scope = Scope {
            grammar: g,
            production,
        };
        judge_production(&scope, number)?;
    }
    Ok(())
}
