// Lines of what is lawful that hold of the definitions of the tree of every lawful source.

ghost use Rattle.ir_definitions.specs.Laws.{ExposedAreGiven, FunctionsAreFew, SitesStandOnce, StatementsAreFew};

/// The functions are few.
pub fn functions_are_few()
    ensures { FunctionsAreFew }
{}

/// The statements are few.
pub fn statements_are_few()
    ensures { StatementsAreFew }
{}

/// The exposed objects are the scalars of which a view is given.
pub fn exposed_are_given()
    ensures { ExposedAreGiven }
{}

/// Each site stands once.
pub fn sites_stand_once()
    ensures { SitesStandOnce }
{}
