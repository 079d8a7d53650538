//! How many spans are open at once.
ghost use Rattle.model.specs.Lists.{count};
ghost use Rattle.model.specs.Spans.{open_during};
ghost use Rattle.model.specs.Tables.{most_open, widest_of};
ghost use Rattle.plan.specs.Layouts.{production_in, held_in};
ghost use Rattle.plan.specs.Views.{production_table_of};
ghost use Rattle.std.specs.Prelude.{◌≡◌, ◌*◌, map, length};

use super::ProductionTable;
use super::layout::Layout;

impl Layout<'_> {
    // How many of the spans are open at the moment.
    fn open_at(&self, moment: usize) -> usize
        ensures { result ≡ count (λ h. open_during moment h.span) (held_in self.now) }
    {
        self.held.iter().filter(|h| h.span.is_open(moment)).count()
    }

    /// The most of the spans that are open at one moment of the steps.
    pub(super) fn width(&self) -> usize
        ensures { result ≡ most_open (held_in self.now) (3 * length (production_in self.now).steps) }
    {
        // asked first: to go over the moments all the same, and over each step's changes (`changes.rt`), made small plans take a third longer
        if self.held.is_empty() {
            return 0;
        }
        // moments are numbers, three for each step, and there is no row of them to go over
        (0..3 * self.bounded.production.steps.len())
            .map(|moment| self.open_at(moment))
            .max()
            .unwrap_or(0)
    }
}

/// The width of the widest production.
pub(crate) fn widest_of(tables: &[ProductionTable]) -> usize
    ensures { result ≡ widest_of (map production_table_of tables.now) }
{
    tables.iter().map(|table| table.width).max().unwrap_or(0)
}
