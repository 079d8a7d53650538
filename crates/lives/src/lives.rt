//! The lives of a scheme's attributes, ready to be tried together.
ghost use Rattle.model.specs.Formed.{Formed};
ghost use Rattle.model.specs.Lists.{every};
ghost use Rattle.model.specs.Loose.{Alternate};
ghost use Rattle.model.specs.Outcomes.{Filling};
ghost use Rattle.model.specs.Scheme as Model;
ghost use Rattle.model.specs.Tape.{play, play_three, ready};
ghost use Rattle.scheme.specs.Whole.{scheme_of};
ghost use Rattle.lives.specs.Playing.{in_range};
ghost use Rattle.lives.specs.Views.{cell_of, events_in, filling_of, flags_in, member, symbols_in};
ghost use Rattle.std.specs.Prelude.{◌≡◌, true, false, IfOk, Decides};

use super::cells::Cell;
use super::table::Table;
use super::tape::Tape;
use scheme::Scheme;
use std::alloc::{AllocError, Global};

/// The tape of a scheme, and a table of outcomes for the scheme's symbols.
#[derive(Drop)]
pub struct Lives {
    tape: Tape,
    table: Table,
    ghost fit: { every (in_range (symbols_in table)) (events_in tape) ≡ true },
}

impl Lives {
    ghost use Rattle.lives.specs.Whole.{Compiled, tape_of, symbols_of};

    /// The lives of a scheme's attributes.
    pub fn of(alloc: Global, scheme: &Scheme) -> Result<Lives, AllocError>
        ensures { IfOk result (λ v. Compiled (scheme_of scheme.now) v) }
    {
        let grammar = scheme.grammar();
        let tape = Tape::of(alloc, grammar)?;
        let table = Table::new(alloc, grammar.visits.len())?;
        Ok(Lives { tape, table })
    }

    /// Whether the lives of all members together alternate: along every loose walk of symbol 0's first section a life begins only when there is none,
    /// and none is left at the end. Rounds fill the table until one changes nothing, or the table is no longer clear.
    pub fn alternates(&mut self, members: &[bool]) -> bool
        ensures decided { (s : Model.Scheme) → Formed s → Compiled s self.old → Decides result (Alternate s (member members.now)) }
        ensures tape { tape_of self.new ≡ tape_of self.old }
        ensures symbols { symbols_of self.new ≡ symbols_of self.old }
    {
        self.table.clear();
        while self.table.is_clear() && self.play_round(members) {}
        self.table.is_clear()
    }

    // One round: the whole tape from each of the three cells. Whether it has changed the table.
    fn play_round(&mut self, members: &[bool]) -> bool
        ensures changed { result ≡ self.new.table.changed }
        ensures played { ◌≡◌ {A = Filling} (filling_of self.new.table) (play_three (member members.now) (tape_of self.old) (record { table = flags_in self.old.table; changed = false })) }
        ensures tape { tape_of self.new ≡ tape_of self.old }
        ensures symbols { symbols_of self.new ≡ symbols_of self.old }
    {
        self.table.changed = false;
        for from in [Cell::Empty, Cell::Held, Cell::Broken] {
            self.tape.play(members, from, &mut self.table);
        }
        self.table.changed
    }
}
