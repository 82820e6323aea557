// What the front of a file tells of the whole.

ghost use Rattle.image_runs.specs.Fronts.{ImagesFit, FrontsAreRefusedAlike};

/// An image that a file can hold is not longer than what is read of its file.
pub fn images_fit()
    ensures { ImagesFit }
{}

/// A file that is longer than what is read of it is refused as its front is.
pub fn fronts_are_refused_alike()
    ensures { FrontsAreRefusedAlike }
{}
