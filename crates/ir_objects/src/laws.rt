// Lines of what is lawful, about objects and parameters, that hold of the tree of every lawful
// source.

ghost use Rattle.ir_objects.specs.Laws.{DataAreFew, InitialValuesFit, ObjectsAreDeclared, ObjectsFollow, ObjectsHaveFunctions, ObjectsHaveShapes, ParametersAreFew, ParametersAreObjects, ScalarsAreFew, ViewsAreFew, ViewsAreNotStatic};

/// The scalars of a function are few.
pub fn scalars_are_few()
    ensures { ScalarsAreFew }
{}

/// The parameters of a function are few.
pub fn parameters_are_few()
    ensures { ParametersAreFew }
{}

/// The bytes of all objects are few.
pub fn data_are_few()
    ensures { DataAreFew }
{}

/// The views of a function are few.
pub fn views_are_few()
    ensures { ViewsAreFew }
{}

/// Only arrays have dimensions.
pub fn objects_have_shapes()
    ensures { ObjectsHaveShapes }
{}

/// The function of an object is one of the tree's; an object of none is static.
pub fn objects_have_functions()
    ensures { ObjectsHaveFunctions }
{}

/// The parameters of a function are objects that are parameters.
pub fn parameters_are_objects()
    ensures { ParametersAreObjects }
{}

/// The objects of a function are its parameters, and then those of its blocks in their order.
pub fn objects_are_declared()
    ensures { ObjectsAreDeclared }
{}

/// No other object stands between those of a function.
pub fn objects_follow()
    ensures { ObjectsFollow }
{}

/// No view is static.
pub fn views_are_not_static()
    ensures { ViewsAreNotStatic }
{}

/// Initial values are those that their object has, each in its width.
pub fn initial_values_fit()
    ensures { InitialValuesFit }
{}
