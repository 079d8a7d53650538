//! Reads the scheme in the file `scheme`, and says its plan or why it is refused.
#![tactic(auto)]

use program::{say, scheme_bytes};

mod answer;

use answer::plan_line;

fn main(rt: HostRuntime) -> anyhow::Result<()> {
    let bytes = scheme_bytes(&rt)?;
    say(&rt, plan_line(rt.alloc(), &bytes))
}
