// The functions that a function calls.

ghost use Rattle.std.specs.Prelude.{◌≡◌, IfOk};
ghost use Rattle.called_functions.specs.Called.{called_in_option, called_in_block};

use crate::statement::add_block;
use c_typed::TypedFunction;
use sat_base::Memory;
use sqlite_items::Items;
use std::alloc::Global;

/// The functions of the source that a function calls, by their numbers, in the order in which the calls stand; none
/// where the function has no body. A function that is called twice stands twice.
pub fn functions_called_in(alloc: Global, function: &TypedFunction) -> Result<Items<u32>, Memory>
    ensures { IfOk result (λ called. called ≡ called_in_option called_in_block function.now.body) }
{
    let mut called = Items::new(alloc);
    if let Some(body) = &function.body {
        add_block(&mut called, body)?;
    }
    Ok(called)
}
