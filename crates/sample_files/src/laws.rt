// What follows from the definition of sample files alone.

ghost use Rattle.sample_files.specs.Reading.{SamplesHaveOneSpelling};

/// No two lists of samples have the same bytes.
pub fn samples_have_one_spelling()
    ensures { SamplesHaveOneSpelling }
{}
