//! What the program answers.
ghost use Rattle.std.specs.Prelude.{◌≡◌, ◌%◌, length, Err, string_bytes, ◌≢◌};
ghost use Rattle.model.specs.Words.{from_bytes};
ghost use Rattle.grammar.specs.declared.refusal.Refusal.TheVariants.{UnevenBytes};
ghost use Rattle.plan_letters.specs.Answers.{Answered};

use grammar::Refusal;
use plan::Plan;
use scheme::Scheme;
use std::alloc::Global;

/// The line of the plan of the scheme that the bytes say, or why they say none.
pub fn plan_line(alloc: Global, bytes: &[u8]) -> Result<String, Refusal>
    ensures uneven { (length bytes.now % 4 ≢ 0) → result ≡ Err UnevenBytes }
    ensures whole { length bytes.now % 4 ≡ 0 → Answered string_bytes (from_bytes bytes.now) result }
{
    let scheme = Scheme::from_bytes(alloc, bytes)?;
    let plan = Plan::settle(alloc, &scheme)?;
    Ok(plan.line(alloc)?)
}
