//! Settles the plan of a scheme.
ghost use Rattle.plan.specs.Settled.{Settled};
ghost use Rattle.scheme.specs.Whole.{scheme_of};
ghost use Rattle.std.specs.Prelude.{IfOk};

use super::Plan;
use crate::figures::Figures;
use crate::letters::attribute_plans;
use crate::sections::all_sections;
use crate::tables::{tabulate, widest_of};
use scheme::Scheme;
use std::alloc::{AllocError, Global};

impl Plan {
    /// The plan of a scheme, settled from the scheme alone.
    pub fn settle(alloc: Global, scheme: &Scheme) -> Result<Plan, AllocError>
        ensures { IfOk result (λ p. Settled (scheme_of scheme.now) p) }
    {
        let sections = all_sections(alloc, scheme)?;
        let figures = Figures {
            scheme,
            sections: &sections,
        };
        let attributes = attribute_plans(alloc, &figures)?;
        let productions = tabulate(alloc, &figures, &attributes)?;
        let widest = widest_of(&productions);
        Ok(Plan {
            attributes,
            productions,
            widest,
        })
    }
}
