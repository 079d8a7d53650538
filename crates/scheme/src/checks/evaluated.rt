//! Each rule of a production has exactly one EVAL.
ghost use Rattle.model.specs.Lawful.{Evaluated, is_eval_of};
ghost use Rattle.model.specs.Lists.{count};
ghost use Rattle.grammar.specs.Views.{production_of, step_of};
ghost use Rattle.std.specs.Prelude.{◌≡◌, map, Decides};

use grammar::{Production, Step};

pub(super) fn is_evaluated(p: &Production) -> bool
    ensures { Decides result (Evaluated (production_of p.now)) }
{
    // The rules' numbers are counted: an EVAL names its rule by number, and no rule is looked up.
    (0..p.rules.len()).all(|rule| evals_of(&p.steps, rule) == 1)
}

// How many steps are an EVAL of the rule.
fn evals_of(steps: &[Step], rule: usize) -> usize
    ensures { result ≡ count (is_eval_of rule) (map step_of steps.now) }
{
    steps
        .iter()
        .filter(|step| **step == Step::Eval(rule))
        .count()
}
