//! The table of outcomes: from which cell a walk of a section of a symbol can come to which.
ghost use Rattle.model.specs.Outcomes.{at, over, put_all};
ghost use Rattle.std.specs.Prelude.{◌≡◌, ◌*◌, ◌<◌, false, true, replicate, length, IfOk};

use super::cells::{Cell, Cells};
use std::alloc::{AllocError, Global};

/// The cells that a walk of a section can come to, from each of the three.
/// What the array's type says of its length stands here for the proofs, which do not see it there.
#[derive(Clone, Copy)]
pub struct Section {
    pub reached: [Cells; 3],
    ghost three: { length reached ≡ 3 },
}

/// The sections of a symbol, of which section 0 stays empty and section 5 is where the steps end.
#[derive(Clone, Copy)]
pub struct Sections {
    pub sections: [Section; 6],
    ghost six: { length sections ≡ 6 },
}

impl Sections {
    ghost use Rattle.lives.specs.Views.{symbol_flags};

    // No section comes to any cell.
    fn none() -> Sections
        ensures { symbol_flags result ≡ replicate 54 false }
    {
        let nowhere = Section {
            reached: [Cells::NONE; 3],
        };
        Sections {
            sections: [nowhere; 6],
        }
    }
}

/// The sections of each symbol, and whether an outcome has been entered since the round began that the table did not have.
/// `changed` is a field because it goes with the table through a pass: handed on beside it, five functions carried it.
#[derive(Drop)]
pub struct Table {
    pub symbols: Vec<Sections>,
    pub changed: bool,
    ghost present: { 0 < length symbols.items },
}

// That the table has a section, and that the number of its symbols stays, each contract that needs it says for itself, here, in Head and in Tape:
// these borrow the table, and a struct that held the borrowed table with the fact as a ghost field beside the `&mut` is not covered.
impl Table {
    ghost use Rattle.lives.specs.Playing.{HasSection, clear};
    ghost use Rattle.lives.specs.Views.{cell_of, cells_of, flags_in, filling_of, symbols_in};

    /// A table with no outcome, for so many symbols.
    pub(crate) fn new(alloc: Global, symbols: usize) -> Result<Table, AllocError>
        requires { 0 < symbols }
        ensures { IfOk result (λ v. symbols_in v ≡ symbols) }
    {
        Ok(Table {
            symbols: vec![in alloc; Sections::none(); symbols]?,
            changed: false,
        })
    }

    /// Takes out all outcomes.
    pub(crate) fn clear(&mut self)
        ensures emptied { flags_in self.new ≡ replicate (54 * symbols_in self.old) false }
        ensures symbols { symbols_in self.new ≡ symbols_in self.old }
    {
        self.symbols.fill(Sections::none());
    }

    /// Where a walk of the section of the symbol can come to from the cells.
    pub(crate) fn through_visit(&self, symbol: usize, section: usize, from: Cells) -> Cells
        requires { HasSection self.now symbol section }
        ensures { cells_of result ≡ over (at (flags_in self.now)) symbol section (cells_of from) }
    {
        let [from_empty, from_held, from_broken] = self.symbols[symbol].sections[section].reached;
        from_empty
            .only_if(from.empty)
            .or(from_held.only_if(from.held))
            .or(from_broken.only_if(from.broken))
    }

    /// Enters that a walk of the section of the symbol which starts from the cell `from` can come to each cell of `to`.
    pub(crate) fn enter(&mut self, symbol: usize, section: usize, from: Cell, to: Cells)
        requires { HasSection self.old symbol section }
        ensures entered { filling_of self.new ≡ put_all symbol section (cell_of from) (cells_of to) (filling_of self.old) }
        ensures symbols { symbols_in self.new ≡ symbols_in self.old }
    {
        let from = from.number();
        let known = self.symbols[symbol].sections[section].reached[from];
        let all = known.or(to);
        self.changed |= all != known;
        // the whole path a second time: tried with a `&mut` to the set itself, which got no proof
        self.symbols[symbol].sections[section].reached[from] = all;
    }

    /// Whether the walks of symbol 0's first section, as far as the table has them, come from the empty cell to no other.
    pub(crate) fn is_clear(&self) -> bool
        ensures { result ≡ clear (flags_in self.now) }
    {
        let ends = self.symbols[0].sections[1].reached[Cell::Empty.number()];
        !ends.held && !ends.broken
    }
}
