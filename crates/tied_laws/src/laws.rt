// What holds of sources whose names are tied.

ghost use Rattle.tied_laws.specs.Following.{BlocksFollow};

/// The objects of each block follow one another.
pub fn blocks_follow()
    ensures { BlocksFollow }
{}
