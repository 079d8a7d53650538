//! The tables of all productions.
ghost use Rattle.model.specs.Tables as Tables;
ghost use Rattle.plan.specs.Views.{bounded_of, letter_of, production_table_of};
ghost use Rattle.scheme.specs.Whole.{scheme_of};
ghost use Rattle.std.specs.Prelude.{◌≡◌, map, IfOk};

use super::ProductionTable;
use super::held::held_by;
use super::layout::Layout;
use crate::bounded::Bounded;
use crate::figures::Figures;
use crate::plan::AttributePlan;
use std::alloc::{AllocError, Global};

// The tables of one production. What it takes goes on to `held_by` alone, whose answer the Layout holds: there is no struct of the rest before it.
fn production_table(
    alloc: Global,
    figures: &Figures,
    plans: &[AttributePlan],
    bounded: &Bounded,
) -> Result<ProductionTable, AllocError>
    ensures { IfOk result (λ e. production_table_of e ≡ Tables.production_table (scheme_of figures.now.scheme.now) (map (λ a. letter_of a.letter) plans.now) (bounded_of bounded.now)) }
{
    let layout = Layout {
        figures: *figures,
        bounded: *bounded,
        held: held_by(alloc, figures, plans, bounded)?,
    };
    Ok(ProductionTable {
        steps: layout.step_tables(alloc)?,
        width: layout.width(),
    })
}

/// The tables of every production, by what the plan says of the attributes.
pub(crate) fn tabulate(
    alloc: Global,
    figures: &Figures,
    plans: &[AttributePlan],
) -> Result<Vec<ProductionTable>, AllocError>
    ensures { IfOk result (λ v. map production_table_of v.items ≡ Tables.tables (scheme_of figures.now.scheme.now) (map (λ a. letter_of a.letter) plans.now)) }
{
    let mut tables = Vec::new(alloc);
    // a `for`: tried as a chain, but that a production is bounded is known by its place, which the closure has not, and the proof did not close
    for production in &figures.scheme.grammar().productions {
        let bounded = Bounded { production };
        tables.push(production_table(alloc, figures, plans, &bounded)?)?;
    }
    Ok(tables)
}
