//! The function here holds nothing: it asks, by its contract, for the proof of a theorem about reading.
ghost use Rattle.scheme.specs.Agreement.{OneAnswer};

/// The answer of reading is determined by the words, but for want of memory.
pub fn one_answer() -> u8
    ensures { OneAnswer }
{
    0
}
