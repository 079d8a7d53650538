//! Which attributes of a scheme can have a single cell.
ghost use Rattle.model.specs.Loose.{Alternate};
ghost use Rattle.model.specs.Tape.{tape};
ghost use Rattle.lives.specs.Whole.{tape_of, symbols_of};
ghost use Rattle.scheme.specs.Whole.{scheme_of};
ghost use Rattle.plan.specs.Flags.{Clear};
ghost use Rattle.std.proofs.Props.{props};
ghost use Rattle.std.specs.Prelude.{◌≡◌, ◌<◌, length, IfOk, Decides, nat_eq};

use lives::Lives;
use scheme::Scheme;
use std::alloc::{AllocError, Global};

/// The lives of a scheme, and for each of its attributes a flag, of which none is set.
#[derive(Drop)]
pub(crate) struct Trials<'s> {
    pub scheme: &'s Scheme,
    lives: Lives,
    flags: Vec<bool>,
    ghost tape_is: { tape_of lives ≡ tape (scheme_of scheme.now) } by { Prim.hlevel props },
    ghost symbols_are: { symbols_of lives ≡ length (scheme_of scheme.now).visits },
    ghost long: { length flags.items ≡ length (scheme_of scheme.now).attributes },
    ghost clear: { Clear flags.items },
}

impl<'s> Trials<'s> {
    /// The scheme's lives, and no flag set.
    pub(crate) fn of(alloc: Global, scheme: &'s Scheme) -> Result<Trials<'s>, AllocError>
        ensures { IfOk result (λ t. t.scheme.now ≡ scheme.now) }
    {
        let lives = Lives::of(alloc, scheme)?;
        let flags = vec![in alloc; false; scheme.grammar().attributes.len()]?;
        Ok(Trials {
            scheme,
            lives,
            flags,
        })
    }

    /// Whether the lives of the attribute alone alternate.
    pub(crate) fn is_single(&mut self, number: usize) -> bool
        requires { number < length (scheme_of self.old.scheme.now).attributes }
        ensures decided { Decides result (Alternate (scheme_of self.old.scheme.now) (nat_eq number)) }
        ensures same { self.new.scheme.now ≡ self.old.scheme.now }
    {
        self.flags[number] = true;
        let alternates = self.lives.alternates(&self.flags);
        self.flags[number] = false;
        alternates
    }
}
