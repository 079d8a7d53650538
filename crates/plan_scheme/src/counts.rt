//! How much there is of a scheme.
ghost use Rattle.plan_scheme.specs.Counts.{sizes_of, counts_line};
ghost use Rattle.scheme.specs.Whole.{scheme_of};
ghost use Rattle.std.specs.Prelude.{◌≡◌, Some};

use scheme::Scheme;
use std::fmt;

#[derive(Clone, Copy)]
pub struct Counts {
    pub symbols: usize,
    pub attributes: usize,
    pub productions: usize,
}

impl From<&Scheme> for Counts {
    ghost from_gives = { λ s r. r ≡ sizes_of (scheme_of s.now) };

    fn from(s: &Scheme) -> Counts {
        let g = s.grammar();
        Counts {
            symbols: g.visits.len(),
            attributes: g.attributes.len(),
            productions: g.productions.len(),
        }
    }
}

// `scheme`, and the numbers of symbols, attributes and productions.
impl fmt::Display for Counts {
    ghost output = { λ c. Some (counts_line c) };

    fn fmt<W: fmt::Write>(&self, f: &mut fmt::Formatter<W>) -> fmt::Result {
        write!(
            f,
            "scheme {} {} {}",
            self.symbols, self.attributes, self.productions
        )
    }
}
