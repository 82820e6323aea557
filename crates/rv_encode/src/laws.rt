// What follows from the table and the meaning of the instructions alone, and holds of the numbers of any size that
// contracts speak of.

ghost use Rattle.rv_encode.specs.Laws.{EncodedDecodes, DecodedEncodes, StoredIsLoaded, OthersStay, RunsCompose};

/// The word of an instruction whose fields are in their ranges is decoded to that instruction.
pub fn encoded_decodes()
    ensures { EncodedDecodes }
{}

/// An instruction that a word is decoded to has that word, and fields in their ranges.
pub fn decoded_encodes()
    ensures { DecodedEncodes }
{}

/// The word that is stored at an address is loaded from it.
pub fn stored_is_loaded()
    ensures { StoredIsLoaded }
{}

/// A store leaves each word that it does not overlap.
pub fn others_stay()
    ensures { OthersStay }
{}

/// So many instructions and then so many lead where all of them do.
pub fn runs_compose()
    ensures { RunsCompose }
{}
