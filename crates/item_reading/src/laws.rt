// What follows from the grammar of declarations and definitions at file scope.

ghost use Rattle.item_reading.specs.Laws.{ItemsAreRead};

/// Where expressions and blocks are read rightly, so are the items of a source.
pub fn items_are_read()
    ensures { ItemsAreRead }
{}
