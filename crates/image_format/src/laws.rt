// What follows from the definitions of files and runs alone.

ghost use Rattle.image_format.specs.Entries.{EntriesFollow};
ghost use Rattle.image_format.specs.Reading.{AreReadBack, AreEnough, ImagesHaveOneSpelling};

/// The sites that m + n instructions enter are those of m, and then those of the next n.
pub fn entries_follow()
    ensures { EntriesFollow }
{}

/// The bytes of an image that a file can hold break no rule, and the image that is read of them is that one.
pub fn images_are_read_back()
    ensures { AreReadBack }
{}

/// Bytes that break no rule are those of an image that a file can hold.
pub fn rules_are_enough()
    ensures { AreEnough }
{}

/// No two images that a file can hold have the same bytes.
pub fn images_have_one_spelling()
    ensures { ImagesHaveOneSpelling }
{}
