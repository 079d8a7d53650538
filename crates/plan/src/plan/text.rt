//! The line that says a plan.
ghost use Rattle.plan.specs.Settled.{letters_of};
ghost use Rattle.plan.specs.Text.{plan_line};
ghost use Rattle.std.specs.Prelude.{◌≡◌, IfOk, Some, string_bytes};

use super::Plan;
use std::alloc::{AllocError, Global};
use std::fmt;

// `plan`, a space, and a letter for each attribute.
impl fmt::Display for Plan {
    ghost output = { λ p. Some (plan_line (letters_of p)) };

    fn fmt<W: fmt::Write>(&self, f: &mut fmt::Formatter<W>) -> fmt::Result {
        f.write_str("plan ")?;
        for attribute in &self.attributes {
            f.write_str(attribute.letter.mark())?;
        }
        Ok(())
    }
}

impl Plan {
    /// The line as text of its own.
    pub fn line(&self, alloc: Global) -> Result<String, AllocError>
        ensures { IfOk result (λ t. string_bytes t ≡ plan_line (letters_of self.now)) }
    {
        format!(in alloc; "{self}")
    }
}
