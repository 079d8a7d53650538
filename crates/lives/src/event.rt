/// What happens along a production's steps, as far as lives and outcomes go. A section is a number by its name: where the steps end it is one past the last visit's.
#[derive(Clone, Copy)]
pub enum Event {
    /// a production of the symbol begins
    Opens(usize),
    /// the life of the attribute ends
    Ends(usize),
    /// the life of the attribute begins
    Begins(usize),
    /// the section of the symbol is visited
    Visits { symbol: usize, section: usize },
    /// the section ends with its LEAVE
    Leaves { section: usize },
}
