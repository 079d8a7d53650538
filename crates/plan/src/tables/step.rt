//! The tables of a production's steps.
ghost use Rattle.model.specs.Lists.{numbered};
ghost use Rattle.model.specs.Tables as Tables;
ghost use Rattle.plan.specs.Layouts.{scheme_in, production_in, held_in};
ghost use Rattle.plan.specs.Views.{step_table_of};
ghost use Rattle.grammar.specs.Views.{step_of};
ghost use Rattle.std.specs.Prelude.{◌≡◌, ◌≤◌, map, IfOk};

use super::StepTable;
use super::changes::attributes_of;
use super::layout::Layout;
use grammar::Step;
use std::alloc::{AllocError, Global};

impl Layout<'_> {
    // The table of step t, which is this step.
    fn step_table(&self, alloc: Global, t: usize, step: Step) -> Result<StepTable, AllocError>
        requires { t ≤ 64 }
        ensures { IfOk result (λ e. step_table_of e ≡ Tables.step_table (scheme_in self.now) (production_in self.now) (held_in self.now) t (step_of step)) }
    {
        let (arguments, target) = match self.bounded.production.evaluated(step) {
            Some(rule) => (
                self.depths_of(alloc, 3 * t, &rule.arguments)?,
                self.depth_of(3 * t + 2, rule.target),
            ),
            None => (Vec::new(alloc), 0),
        };
        Ok(StepTable {
            opens: attributes_of(alloc, &self.held, |h| h.span.opens_at == t)?,
            closes: attributes_of(alloc, &self.held, |h| h.span.closes_at == t)?,
            arguments,
            target,
        })
    }

    /// The tables of all steps of the production.
    pub(super) fn step_tables(&self, alloc: Global) -> Result<Vec<StepTable>, AllocError>
        ensures { IfOk result (λ v. map step_table_of v.items ≡ numbered (Tables.step_table (scheme_in self.now) (production_in self.now) (held_in self.now)) 0 (production_in self.now).steps) }
    {
        self.bounded
            .production
            .steps
            .iter()
            .enumerate()
            .map(|(t, step)| self.step_table(alloc, t, *step))
            .try_collect(alloc)
    }
}
