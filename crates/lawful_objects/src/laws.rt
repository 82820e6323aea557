// Lines of what is lawful that hold of the objects of every source without a fault.

ghost use Rattle.lawful_objects.specs.Laws.{ExposedAreGiven, InitialValuesFit, ObjectsAreDeclared, ObjectsFollow};

/// The objects of a function are its parameters, and then those of its blocks in their order.
pub fn objects_are_declared()
    ensures { ObjectsAreDeclared }
{}

/// No other object stands between those of a function.
pub fn objects_follow()
    ensures { ObjectsFollow }
{}

/// An object is exposed exactly where it is a scalar of which a view is given, where the grammar
/// allows the source.
pub fn exposed_are_given()
    ensures { ExposedAreGiven }
{}

/// An object starts with all its values, each in its width, where the grammar allows the source
/// and the integers that they are folded from have 32 bits.
pub fn initial_values_fit()
    ensures { InitialValuesFit }
{}
