// What a Local and an Array keep, in small. Each theorem is the contract of a function that does nothing.
ghost use Rattle.gos_data.specs.Stored.{StoredIsKept, KeptIsNotStored};
ghost use Rattle.gos_data.specs.Words.{WordsAreKept, EachIndexPicksNoNumber};

/// A stored number is set by a write, cleared by an entry, and kept otherwise. Where an entry leaves it as it is it isn't stored.
pub fn stored_numbers()
    ensures kept { StoredIsKept }
    ensures cleared { KeptIsNotStored }
{}

/// The words of an array pick the number at the index; an entry clears all numbers, and a write sets the one at the index. What
/// picks a number at each index is no such word.
pub fn array_words()
    ensures kept { WordsAreKept }
    ensures each_index { EachIndexPicksNoNumber }
{}
