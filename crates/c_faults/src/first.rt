// The fault that is told of a source.
#![tactic(auto, using(crate::proofs::Firsts::firsts))]

ghost use Rattle.std.specs.Prelude.{◌≡◌, IfOk, flat_map};
ghost use Rattle.c_faults.specs.Faults.{rows, limits, faults_at, faults_of};
ghost use Rattle.c_faults.specs.Told.{first_of, first_among};

use crate::calls::fault_of_call;
use crate::declarations::{fault_of_function, fault_of_object, fault_of_parameter};
use crate::limits::{Quantity, constants_passed, passed};
use crate::places::fault_of_place;
use crate::told::{at_if, first_among, told};
use c_seen::{Seen, seen_in};
use c_tree::Program;
use sat_base::{At, Fault, FaultKind, Memory, lesser};
use std::alloc::Global;

/// `return`, with a value or without one.
fn fault_of_return(at: At, has_value: bool, gives: bool) -> Option<Fault>
    ensures { result ≡ first_among (rows (Seen.Return at has_value gives)) }
{
    told(
        FaultKind::WrongReturn,
        at_if(if has_value { !gives } else { gives }, at),
    )
}

/// The fault that is told of one thing seen.
fn fault_at(seen: &Seen) -> Option<Fault>
    ensures { result ≡ first_among (rows seen.now) }
{
    match seen {
        Seen::Place(place) => fault_of_place(place),
        Seen::Call(call) => fault_of_call(call),
        Seen::NoView { at } => told(FaultKind::ViewNeeded, Some(*at)),
        Seen::Name { at, is_taken } => told(FaultKind::DuplicateName, at_if(*is_taken, *at)),
        Seen::Object(object) => fault_of_object(object),
        Seen::Parameter(param) => fault_of_parameter(param),
        Seen::Function(function) => fault_of_function(function),
        Seen::Statement { .. } => None,
        Seen::Constant { .. } => None,
        Seen::Leave { at, in_loop } => told(FaultKind::OutsideALoop, at_if(!*in_loop, *at)),
        Seen::Return {
            at,
            has_value,
            gives,
        } => fault_of_return(*at, *has_value, *gives),
        Seen::End { at, has_main } => told(FaultKind::NoMain, at_if(!*has_main, *at)),
    }
}

/// The fault that is told of these.
fn first_at(seen: &[Seen]) -> Option<Fault>
    ensures { result ≡ first_of (flat_map faults_at seen.now) }
{
    let mut first = None;
    for one in seen {
        first = lesser(first, fault_at(one));
    }
    first
}

/// The limit that is told of these.
fn limit_in(alloc: Global, seen: &[Seen]) -> Result<Option<Fault>, Memory>
    ensures { IfOk result (λ limit. limit ≡ first_among (limits seen.now)) }
{
    let constants = constants_passed(alloc, seen)?;
    Ok(first_among(&[
        told(
            FaultKind::TooManyFunctions,
            passed(Quantity::Functions, seen),
        ),
        told(FaultKind::TooManyScalars, passed(Quantity::Scalars, seen)),
        told(
            FaultKind::TooManyParameters,
            passed(Quantity::Parameters, seen),
        ),
        told(FaultKind::TooMuchData, passed(Quantity::Data, seen)),
        told(FaultKind::TooManyConstants, constants),
        told(
            FaultKind::TooManyStatements,
            passed(Quantity::Statements, seen),
        ),
        told(FaultKind::TooManyViews, passed(Quantity::Views, seen)),
    ]))
}

/// The fault that is told of the source: of all its faults and of the limits that it passes the one at the
/// least token, and of several there the first by kind. None where it has none.
///
/// # Errors
/// For want of memory alone.
pub fn first_fault(alloc: Global, program: &Program) -> Result<Option<Fault>, Memory>
    ensures { IfOk result (λ fault. fault ≡ first_of (faults_of program.now)) }
{
    let seen = seen_in(alloc, program)?;
    let limit = limit_in(alloc, seen.as_slice())?;
    Ok(lesser(first_at(seen.as_slice()), limit))
}
