// What holds of orders.

ghost use Rattle.call_graph.specs.Laws.{OrdersHaveNoCycles};

/// Where there is an order, no function reaches itself.
pub fn orders_have_no_cycles()
    ensures { OrdersHaveNoCycles }
{}
