//! What a production's step needs is known by then.
ghost use Rattle.model.specs.Lawful.{Ordered};
ghost use Rattle.scheme.specs.Checked.{FirstFailing};
ghost use Rattle.grammar.specs.Views.{scheme_in, production_in};

mod moment;

use self::moment::Moment;
use grammar::Scope;

/// The first step that needs what is not known by then.
pub(super) fn first_early(scope: &Scope<'_>) -> Option<usize>
    ensures { FirstFailing (Ordered (scheme_in scope.now) (production_in scope.now)) result }
{
    scope.production.steps.iter().enumerate().position(|(number, step)| {
        let moment = Moment {
            scope: *scope,
            step: number,
        };
        !moment.is_ordered(*step)
    })
}
