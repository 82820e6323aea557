// Lines of what is lawful that hold of every source without a fault by what its names stand for.

ghost use Rattle.lawful_names.specs.Laws.{ArgumentsAreCounted, ArgumentsFit, CalleesAreDefined, ConstIsKept, ConstantsAreFew, ConversionsStand, DataAreFew, FunctionsAreFew, FunctionsExist, HasMain, MainIsNotCalled, NamesDiffer, ObjectsBegin, ObjectsExist, ObjectsHaveFunctions, ObjectsHaveShapes, ParametersAreFew, ParametersAreObjects, PlacesFit, ScalarsAreFew, StatementsAreFew, ValuesAreGiven, ViewsAreFew, WidthsAgree};

/// Each object that is named is one of the source's own.
pub fn objects_exist()
    ensures { ObjectsExist }
{}

/// Each function that is called is one of the source's own.
pub fn functions_exist()
    ensures { FunctionsExist }
{}

/// What is const is neither written nor given away to be written.
pub fn const_is_kept()
    ensures { ConstIsKept }
{}

/// A view is given to one of elements of the same width.
pub fn widths_agree()
    ensures { WidthsAgree }
{}

/// A call has as many arguments as there are parameters.
pub fn arguments_are_counted()
    ensures { ArgumentsAreCounted }
{}

/// A view is given where one is taken, and a number where that is.
pub fn arguments_fit()
    ensures { ArgumentsFit }
{}

/// A call whose value is needed gives one.
pub fn values_are_given()
    ensures { ValuesAreGiven }
{}

/// What is called has a definition.
pub fn callees_are_defined()
    ensures { CalleesAreDefined }
{}

/// `main` is not called.
pub fn main_is_not_called()
    ensures { MainIsNotCalled }
{}

/// An implied conversion stands exactly where it has to.
pub fn conversions_stand()
    ensures { ConversionsStand }
{}

/// There is a definition of `main` without parameters that gives a 32-bit number or nothing.
pub fn has_main()
    ensures { HasMain }
{}

/// The relational constants are few.
pub fn constants_are_few()
    ensures { ConstantsAreFew }
{}

/// The marks of a place reach a number or what a view is given of, where the grammar allows the source.
pub fn places_fit()
    ensures { PlacesFit }
{}

/// A missing dimension is 0, and only arrays have any, where the grammar allows the source.
pub fn objects_have_shapes()
    ensures { ObjectsHaveShapes }
{}

/// The parameters of a function are objects that are parameters.
pub fn parameters_are_objects()
    ensures { ParametersAreObjects }
{}

/// The functions are few.
pub fn functions_are_few()
    ensures { FunctionsAreFew }
{}

/// The function of an object has a definition, and an object of no function is static.
pub fn objects_have_functions()
    ensures { ObjectsHaveFunctions }
{}

/// The bytes of the objects are few, where the grammar allows the source.
pub fn data_are_few()
    ensures { DataAreFew }
{}

/// The statements are few.
pub fn statements_are_few()
    ensures { StatementsAreFew }
{}

/// The objects of blocks begin well, where the grammar allows the source.
pub fn objects_begin()
    ensures { ObjectsBegin }
{}

/// The parameters of each function are few.
pub fn parameters_are_few()
    ensures { ParametersAreFew }
{}

/// The scalars of each function are few, where the grammar allows the source.
pub fn scalars_are_few()
    ensures { ScalarsAreFew }
{}

/// The views of each function are few.
pub fn views_are_few()
    ensures { ViewsAreFew }
{}

/// No two functions have one name.
pub fn names_differ()
    ensures { NamesDiffer }
{}
