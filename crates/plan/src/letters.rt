//! What a plan says of each attribute: its letter, beside its sections.
ghost use Rattle.model.specs.Lists.{Has};
ghost use Rattle.model.specs.Plan.{Lettered, Planned};
ghost use Rattle.grammar.specs.Views.{attribute_of};
ghost use Rattle.scheme.specs.Whole.{scheme_of};
ghost use Rattle.model.specs.Tables.{all_sections};
ghost use Rattle.plan.specs.Views.{letter_of, sections_of};
ghost use Rattle.std.specs.Prelude.{◌≡◌, map, IfOk};

use super::figures::Figures;
use super::letter::Letter;
use super::plan::AttributePlan;
use super::span::Figure;
use super::stacking::stacks;
use super::trials::Trials;
use scheme::Scheme;
use std::alloc::{AllocError, Global};

// The letter of the figure.
fn letter_of(alloc: Global, trials: &mut Trials, figure: &Figure) -> Result<Letter, AllocError>
    requires { trials.old.scheme.now ≡ figure.now.scheme.now }
    ensures lettered { IfOk result (λ l. Lettered (scheme_of figure.now.scheme.now) figure.now.number (letter_of l)) }
    ensures same { trials.new.scheme.now ≡ trials.old.scheme.now }
{
    if figure.attribute.symbol == 0 {
        return Ok(Letter::Kept);
    }
    if trials.is_single(figure.number) {
        return Ok(Letter::Single);
    }
    if stacks(alloc, figure)? {
        Ok(Letter::Stacked)
    } else {
        Ok(Letter::Kept)
    }
}

/// The letters and the sections of a scheme's attributes, tried one after the other.
pub(crate) fn attribute_plans(
    alloc: Global,
    figures: &Figures,
) -> Result<Vec<AttributePlan>, AllocError>
    ensures planned { IfOk result (λ v. Planned (scheme_of figures.now.scheme.now) (map (λ a. letter_of a.letter) v.items)) }
    ensures sectioned { IfOk result (λ v. map (λ a. sections_of a.sections) v.items ≡ all_sections (scheme_of figures.now.scheme.now)) }
{
    let scheme = figures.scheme;
    let mut trials = Trials::of(alloc, scheme)?;
    let mut plans = Vec::new(alloc);
    // a `for`: each letter takes the trials on, and may want for memory
    for (number, attribute) in scheme.grammar().attributes.iter().enumerate() {
        let figure = figures.figure(number, *attribute);
        plans.push(AttributePlan {
            letter: letter_of(alloc, &mut trials, &figure)?,
            sections: figure.sections,
        })?;
    }
    Ok(plans)
}
