//! Symbol 0, the root of every tree.
ghost use Rattle.model.specs.Checking.{Rooted};
ghost use Rattle.model.specs.Lists.{any};
ghost use Rattle.scheme.specs.Roots.{inherited_of_root, has_root_child};
ghost use Rattle.grammar.specs.Views.{attribute_of, grammar_of, production_of};
ghost use Rattle.std.specs.Prelude.{◌≡◌, map, Decides};

use grammar::{Attribute, Grammar, Production, Side, VisitNumber};

/// It has one visit and no inherited attribute, and is no child.
pub(super) fn is_rooted(g: &Grammar) -> bool
    ensures { Decides result (Rooted (grammar_of g.now)) }
{
    g.last_visit(0) == Some(VisitNumber(1))
        && !root_inherits(&g.attributes)
        && !root_is_child(&g.productions)
}

// Some attribute is an inherited one of the root.
fn root_inherits(attributes: &[Attribute]) -> bool
    ensures { result ≡ any inherited_of_root (map attribute_of attributes.now) }
{
    attributes
        .iter()
        .any(|a| a.symbol == 0 && a.side == Side::Inherited)
}

// Some production has the root as a child.
fn root_is_child(productions: &[Production]) -> bool
    ensures { result ≡ any has_root_child (map production_of productions.now) }
{
    productions.iter().any(|p| p.children.contains(&0))
}
