//! What the definitions of this crate give, for contracts that speak of them and call nothing here.

ghost use Rattle.buftag.specs.Laws.{AreAllocatedChunksWhole, AreFreeChunksWhole, AreNumbersOfTags, AreSizesToldByCodes, AreStoresBesideTheMarksAllowed, AreWholeFreeChunksAsWritten, HaveAllocatedChunksTheirLength, HaveFreeChunksTheirLength, HaveWholeAllocatedChunksTheirMarks};

/// The patterns and marks, and what a size is multiplied by to give its code, as numbers: code and definitions
/// share the constants, so nothing else here would refuse an exchange of two.
pub fn tags_have_their_numbers()
    ensures { AreNumbersOfTags }
{}

/// A code tells the size that it was made of.
pub fn codes_tell_their_size()
    ensures { AreSizesToldByCodes }
{}

/// A chunk in its written state has so many bytes as its shape says, and breaks no rule.
pub fn written_chunks_are_whole()
    ensures free_length { HaveFreeChunksTheirLength }
    ensures length { HaveAllocatedChunksTheirLength }
    ensures free { AreFreeChunksWhole }
    ensures allocated { AreAllocatedChunksWhole }
{}

/// An allocated chunk that was written to anywhere but in its tag and at its guard byte breaks no rule.
pub fn stores_beside_the_marks_break_no_rule()
    ensures { AreStoresBesideTheMarksAllowed }
{}

/// A free chunk that breaks no rule is as it was written, byte by byte: each write to a free chunk is found.
pub fn free_chunks_without_a_finding_are_as_written()
    ensures { AreWholeFreeChunksAsWritten }
{}

/// An allocated chunk that breaks no rule has the tag and the guard byte that an allocation leaves: each
/// write to them that changes a byte is found, unless it makes them those of another request.
pub fn allocated_chunks_without_a_finding_have_their_marks()
    ensures { HaveWholeAllocatedChunksTheirMarks }
{}
