//! Plays a tape, which fills the table of outcomes.
ghost use Rattle.model.specs.Outcomes.{Filling};
ghost use Rattle.model.specs.Lists.{every};
ghost use Rattle.model.specs.Tape.{play, ready};
ghost use Rattle.lives.specs.Playing.{in_range};
ghost use Rattle.lives.specs.Views.{cell_of, events_in, filling_of, member, symbols_in};
ghost use Rattle.std.specs.Prelude.{◌≡◌, true};

use super::cells::Cell;
use super::head::Head;
use super::table::Table;
use super::tape::Tape;

impl Tape {
    /// The whole tape, of starts from the cell.
    pub(crate) fn play(&self, members: &[bool], from: Cell, table: &mut Table)
        requires { every (in_range (symbols_in table.old)) (events_in self.now) ≡ true }
        ensures played { ◌≡◌ {A = Filling} (filling_of table.new) (play (member members.now) (cell_of from) (ready (filling_of table.old)) (events_in self.now)).filling }
        ensures symbols { symbols_in table.new ≡ symbols_in table.old }
    {
        // a tape begins with Opens, which sets the head to its production: until then it may stand anywhere
        let mut head = Head::starting(0, 0, Cell::Empty);
        for event in &self.events {
            head.follow(*event, members, from, table);
        }
    }
}
