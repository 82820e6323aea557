// What follows from the grammar of declarations.

ghost use Rattle.declaration_reading.specs.Laws.{ObjectsAreRead};

/// Where expressions are read rightly, so are declarations of objects.
pub fn objects_are_read()
    ensures { ObjectsAreRead }
{}
