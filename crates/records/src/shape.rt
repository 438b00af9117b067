// The shape of the words.
ghost use Rattle.records.specs.Records.{Shaped, lent};

use crate::*;

// Rows within rows have their number: a call by value tells it; no code is left of it.
pub fn shape(words: RecordWords)
    ensures { Shaped words }
{}

// The same of the three parts.
pub fn shape_of(head: Head, counts: Counts, places: Places)
    ensures { Shaped (lent head counts places) }
{}
