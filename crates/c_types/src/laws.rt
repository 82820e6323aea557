// What holds of sources whose names are tied.

ghost use Rattle.c_types.specs.Laws.{AreTiedOnce, AreNumberedByPlaces};

/// A source is tied in at most one way.
pub fn one_typed()
    ensures { AreTiedOnce }
{}

/// Where no two sites have one token, the number of each is its place among all.
pub fn numbers_are_places()
    ensures { AreNumberedByPlaces }
{}
