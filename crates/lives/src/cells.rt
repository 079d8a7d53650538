//! The cell that lives share, and sets of what it may hold.
ghost use Rattle.model.specs.Loose.{begin, end};
ghost use Rattle.model.specs.Outcomes.{code, only, mark};
ghost use Rattle.lives.specs.Views.{cell_of, cells_of};
ghost use Rattle.std.specs.Prelude.{◌≡◌, ◌&&◌, ◌||◌};

/// No life is in the cell, or one is, or lives have failed to alternate in it.
#[derive(Clone, Copy, PartialEq, Eq)]
pub enum Cell {
    Empty,
    Held,
    Broken,
}

impl Cell {
    /// Its place in what stands for each of the three. No `From`: it is asked once, and would say no more.
    pub(crate) fn number(self) -> usize
        ensures { result ≡ code (cell_of self) }
    {
        self as usize
    }
}

/// A set of cells: a flag for each, by its name. Sets are combined flag by flag, so `|` and `&` stand here for operations of sets.
#[derive(Clone, Copy, PartialEq, Eq)]
pub struct Cells {
    pub empty: bool,
    pub held: bool,
    pub broken: bool,
}

impl Cells {
    /// The set of no cell.
    pub const NONE: Cells = Cells {
        empty: false,
        held: false,
        broken: false,
    };

    /// The set of one cell.
    pub(crate) fn single(cell: Cell) -> Cells
        ensures { cells_of result ≡ only (cell_of cell) }
    {
        Cells {
            empty: cell == Cell::Empty,
            held: cell == Cell::Held,
            broken: cell == Cell::Broken,
        }
    }

    /// After a life has begun in each.
    pub(crate) fn begun(self) -> Cells
        ensures { cells_of result ≡ mark (cells_of self) begin }
    {
        Cells {
            empty: false,
            held: self.empty,
            broken: self.held | self.broken,
        }
    }

    /// After a life has ended in each.
    pub(crate) fn ended(self) -> Cells
        ensures { cells_of result ≡ mark (cells_of self) end }
    {
        Cells {
            empty: self.held,
            held: false,
            broken: self.empty | self.broken,
        }
    }

    /// The cells of either set.
    pub(crate) fn or(self, other: Cells) -> Cells
        ensures { cells_of result ≡ record { e = self.empty || other.empty; h = self.held || other.held; b = self.broken || other.broken } }
    {
        Cells {
            empty: self.empty | other.empty,
            held: self.held | other.held,
            broken: self.broken | other.broken,
        }
    }

    /// The set itself if the flag is set, and otherwise that of no cell.
    pub(crate) fn only_if(self, flag: bool) -> Cells
        ensures { cells_of result ≡ record { e = flag && self.empty; h = flag && self.held; b = flag && self.broken } }
    {
        Cells {
            empty: flag & self.empty,
            held: flag & self.held,
            broken: flag & self.broken,
        }
    }
}
