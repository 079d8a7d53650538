//! Where the playing of a tape has come to.
ghost use Rattle.model.specs.Outcomes.{only};
ghost use Rattle.model.specs.Tape.{Machine, act};
ghost use Rattle.lives.specs.Views.{event_of, cell_of, cells_of, member, symbols_in};
ghost use Rattle.std.specs.Prelude.{◌≡◌, true};

use super::cells::{Cell, Cells};
use super::event::Event;
use super::table::Table;

/// The production's left symbol, the section that it is in, and the cells that it can have come to there.
#[derive(Clone, Copy)]
pub struct Head {
    pub left: usize,
    pub section: usize,
    pub cells: Cells,
}

impl Head {
    ghost use Rattle.lives.specs.Playing.{in_range, machine_of, HasSection};

    /// Where a section of the left symbol starts from the cell.
    pub(crate) fn starting(left: usize, section: usize, from: Cell) -> Head
        ensures place { (result.left ≡ left) × (result.section ≡ section) }
        ensures cells { cells_of result.cells ≡ only (cell_of from) }
    {
        Head {
            left,
            section,
            cells: Cells::single(from),
        }
    }

    /// Goes on by one event of the tape, of a start from the cell.
    pub(crate) fn follow(&mut self, event: Event, members: &[bool], from: Cell, table: &mut Table)
        requires fits { in_range (symbols_in table.old) (event_of event) ≡ true }
        requires placed { HasSection table.old self.old.left self.old.section }
        ensures acted { ◌≡◌ {A = Machine} (machine_of self.new table.new) (act (member members.now) (cell_of from) (machine_of self.old table.old) (event_of event)) }
        ensures placed { HasSection table.new self.new.left self.new.section }
        ensures symbols { symbols_in table.new ≡ symbols_in table.old }
    {
        match event {
            Event::Opens(symbol) => *self = Head::starting(symbol, 1, from),
            Event::Ends(attribute) | Event::Begins(attribute) if !is_member(members, attribute) =>
                {}
            Event::Ends(_) => self.cells = self.cells.ended(),
            Event::Begins(_) => self.cells = self.cells.begun(),
            Event::Visits { symbol, section } => {
                self.cells = table.through_visit(symbol, section, self.cells);
            }
            Event::Leaves { section } => {
                table.enter(self.left, self.section, from, self.cells);
                *self = Head::starting(self.left, section + 1, from);
            }
        }
    }
}

// Whether the attribute is a member: past the end of the flags there is none.
fn is_member(members: &[bool], attribute: usize) -> bool
    ensures { result ≡ member members.now attribute }
{
    members.get(attribute).copied().unwrap_or(false)
}
