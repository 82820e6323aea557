// The faults of declarations.

ghost use Rattle.std.specs.Prelude.{◌≡◌};
ghost use Rattle.c_seen.specs.declared.seen.Seen.TheVariants as thing;
ghost use Rattle.c_faults.specs.Faults.{rows};
ghost use Rattle.c_faults.specs.Told.{first_among};

use crate::told::{at_if, first_among, told};
use c_seen::{SeenFunction, SeenObject, SeenParameter};
use sat_base::{Fault, FaultKind};

/// The fault that is told of an object.
pub(crate) fn fault_of_object(object: &SeenObject) -> Option<Fault>
    ensures { result ≡ first_among (rows (thing.Object object.now)) }
{
    first_among(&[
        told(
            FaultKind::BadInitialiser,
            at_if(object.has_bad_initialiser, object.at),
        ),
        told(
            FaultKind::BadLength,
            at_if(object.has_bad_length, object.at),
        ),
        told(
            FaultKind::PointerUse,
            at_if(object.misuses_pointer, object.at),
        ),
    ])
}

/// The fault that is told of a parameter.
pub(crate) fn fault_of_parameter(param: &SeenParameter) -> Option<Fault>
    ensures { result ≡ first_among (rows (thing.Parameter param.now)) }
{
    let is_unnamed = param.is_defined && !param.has_name;
    first_among(&[
        told(FaultKind::DuplicateName, at_if(is_unnamed, param.type_at)),
        told(FaultKind::BadLength, param.bad_length),
    ])
}

/// The fault that is told of a function.
pub(crate) fn fault_of_function(function: &SeenFunction) -> Option<Fault>
    ensures { result ≡ first_among (rows (thing.Function function.now)) }
{
    first_among(&[
        told(
            FaultKind::MissingReturn,
            at_if(function.lacks_return, function.at),
        ),
        told(
            FaultKind::DeclarationsDiffer,
            at_if(function.differs, function.at),
        ),
        told(
            FaultKind::DefinedTwice,
            at_if(function.is_second, function.at),
        ),
    ])
}
