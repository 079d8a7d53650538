//! What the programs share: the file `scheme` is read, and what it says is answered or refused.
#![tactic(auto)]

ghost use Rattle.std.specs.Prelude.{◌≡◌, Err, IsErr};
ghost use Rattle.grammar.specs.declared.refusal.Refusal.TheVariants.{Memory};

use anyhow::anyhow;
use grammar::Refusal;
use std::fmt::Display;
use std::rt::Files;
use std::{fs, io};

/// The bytes of the file `scheme`, none where there is no such file. No clause can say what a file holds.
pub fn scheme_bytes<R: Files + AllocGlobal>(rt: &R) -> io::Result<Vec<u8>> {
    match fs::read(rt, "scheme") {
        Err(e) if e.kind() == io::ErrorKind::NotFound => Ok(Vec::new(rt.alloc())),
        read => read,
    }
}

/// Prints the answer, or why there is none. Want of memory is neither, and is an error of the program.
pub fn say<A: Display + Drop>(rt: &impl Print, answer: Result<A, Refusal>) -> anyhow::Result<()>
    ensures { answer ≡ Err Memory → IsErr result }
{
    match answer {
        Ok(line) => rt.println(line)?,
        Err(Refusal::Memory) => return Err(anyhow!("not enough memory")),
        Err(refusal) => rt.println(refusal)?,
    }
    Ok(())
}
