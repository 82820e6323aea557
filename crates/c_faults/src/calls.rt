// The faults of a call.

ghost use Rattle.std.specs.Prelude.{◌≡◌};
ghost use Rattle.c_seen.specs.declared.seen.Seen.TheVariants as thing;
ghost use Rattle.c_faults.specs.Faults.{rows};
ghost use Rattle.c_faults.specs.Told.{first_among};

use crate::places::{first_if, needs_number};
use crate::told::{at_if, first_among, told};
use c_seen::{Called, SeenCall};
use sat_base::{Fault, FaultKind};

/// The fault that is told of a call.
pub(crate) fn fault_of_call(call: &SeenCall) -> Option<Fault>
    ensures { result ≡ first_among (rows (thing.Call call.now)) }
{
    match call.called {
        Called::Unknown => told(FaultKind::UnknownName, Some(call.at)),
        Called::NoFunction => told(FaultKind::NotAFunction, Some(call.at)),
        Called::Function {
            gives,
            parameters,
            is_defined,
            is_main,
        } => {
            let is_void = needs_number(call.need) && !gives;
            first_among(&[
                told(
                    FaultKind::ArgumentCount,
                    at_if(call.arguments != parameters, call.at),
                ),
                told(FaultKind::VoidValue, at_if(is_void, call.at)),
                told(FaultKind::ViewNeeded, first_if(true, call.need)),
                told(FaultKind::NoDefinition, at_if(!is_defined, call.at)),
                told(FaultKind::MainCalled, at_if(is_main, call.at)),
            ])
        },
    }
}
