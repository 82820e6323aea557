// What follows from the definitions alone.

ghost use Rattle.c_faults.specs.Laws.{FirstIsLeast};

/// The fault that is told of several is the least of them, by token and then by kind.
pub fn first_is_least()
    ensures { FirstIsLeast }
{}
