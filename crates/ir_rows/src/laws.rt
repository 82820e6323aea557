// Lines of what is lawful that hold of each thing in the tree of every lawful source.

ghost use Rattle.ir_rows.specs.Laws.{ArgumentsAreCounted, ConstIsKept, FunctionsExist, KindsAgree, MainIsNotCalled, MarksAreNumbered, ObjectsBegin, ObjectsExist, PlacesFit, ValuesAreGiven, WidthsAgree};

/// The number of an object is one of the tree's own.
pub fn objects_exist()
    ensures { ObjectsExist }
{}

/// And so is the number of a function.
pub fn functions_exist()
    ensures { FunctionsExist }
{}

/// An object of a block starts as it may.
pub fn objects_begin()
    ensures { ObjectsBegin }
{}

/// The marks of a place reach what is asked for there.
pub fn places_fit()
    ensures { PlacesFit }
{}

/// Nothing writes to what is const.
pub fn const_is_kept()
    ensures { ConstIsKept }
{}

/// A view is given to one of elements of the same width.
pub fn widths_agree()
    ensures { WidthsAgree }
{}

/// A call has as many arguments as there are parameters.
pub fn arguments_are_counted()
    ensures { ArgumentsAreCounted }
{}

/// A call whose value is needed gives one.
pub fn values_are_given()
    ensures { ValuesAreGiven }
{}

/// No call is one of main.
pub fn main_is_not_called()
    ensures { MainIsNotCalled }
{}

/// A node that is a site has the site of its own token.
pub fn marks_are_numbered()
    ensures { MarksAreNumbered }
{}

/// The kind that the site list gives is that of the node.
pub fn kinds_agree()
    ensures { KindsAgree }
{}
