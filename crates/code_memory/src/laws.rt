// What loads and stores do.

ghost use Rattle.code_memory.specs.Memory.{WordsAreKept, LoadsAreDone, StoresAreDone};

/// A word that is kept is there, and all others are as before.
pub fn words_are_kept()
    ensures { WordsAreKept }
{}

/// A register becomes the number in a word.
pub fn loads_are_done()
    ensures { LoadsAreDone }
{}

/// A word becomes the number in a register.
pub fn stores_are_done()
    ensures { StoresAreDone }
{}
