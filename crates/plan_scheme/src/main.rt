//! Reads the scheme in the file `scheme`, and says how much there is of it or why it is refused.
#![tactic(auto)]

use program::{say, scheme_bytes};
use scheme::Scheme;

mod counts;

use counts::Counts;

fn main(rt: HostRuntime) -> anyhow::Result<()> {
    let bytes = scheme_bytes(&rt)?;
    say(
        &rt,
        Scheme::from_bytes(rt.alloc(), &bytes).map(|scheme| Counts::from(&scheme)),
    )
}
