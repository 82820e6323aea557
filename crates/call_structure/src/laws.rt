// What orders and recursions say of walks of calls.

ghost use Rattle.call_structure.specs.Reaching.{OrdersAreFree, RecursionsAre};

/// Where there is an order, no function reaches itself.
pub fn orders_are_free()
    ensures { OrdersAreFree }
{}

/// Where a recursion is told, some function reaches itself.
pub fn recursions_are()
    ensures { RecursionsAre }
{}
