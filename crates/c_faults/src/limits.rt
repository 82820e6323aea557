// The limits of a source: at which token each is passed.
#![tactic(auto, using(crate::proofs::Counts::counts))]

ghost use Rattle.std.specs.Prelude.{◌≡◌, ◌<◌, ◌^◌, IfOk, IfSome, OnOk, SomeIff, FitsSigned};
ghost use Rattle.std.specs.Int.{w32};
ghost use Rattle.std.specs.BTreeSet.{insert_key};
ghost use Rattle.std.specs.Ordering.{int_cmp};
ghost use Rattle.c_faults.specs.Limits.{limit_of, bytes_of, one_if, is_scalar, is_view, of_object, of_parameter, of_function, of_statement, amount, place, is_by_function, is_function, left_at, left_after, passed, constant_in, is_one_too_many, constants_passed};

use c_seen::{Kind, Seen, SeenFunction, SeenObject, SeenParameter};
use sat_base::limits::{
    CONSTANTS, FUNCTIONS, OBJECT_BYTES, PARAMETERS, SCALARS, STATEMENTS, VIEWS,
};
use sat_base::{At, Memory, Width};
use std::alloc::Global;
use std::collections::BTreeSet;

/// What is limited, the relational constants apart.
#[derive(Clone, Copy)]
pub enum Quantity {
    /// Distinct functions.
    Functions,
    /// Scalars of one function, its parameters among them.
    Scalars,
    /// Parameters of one function.
    Parameters,
    /// Bytes of all objects.
    Data,
    Statements,
    /// Views of one function, its parameters among them.
    Views,
}

fn limit_of(quantity: Quantity) -> u128
    ensures { result ≡ limit_of quantity }
{
    match quantity {
        Quantity::Functions => FUNCTIONS as u128,
        Quantity::Scalars => SCALARS as u128,
        Quantity::Parameters => PARAMETERS as u128,
        Quantity::Data => OBJECT_BYTES as u128,
        Quantity::Statements => STATEMENTS as u128,
        Quantity::Views => VIEWS as u128,
    }
}

fn bytes_of(width: Width) -> u128
    ensures { result ≡ bytes_of width }
{
    match width {
        Width::W16 => 2,
        Width::W32 => 4,
    }
}

fn one_if(applies: bool) -> u128
    ensures { result ≡ one_if applies }
{
    if applies { 1 } else { 0 }
}

fn is_scalar(kind: Kind) -> bool
    ensures { result ≡ is_scalar kind }
{
    matches!(kind, Kind::Scalar)
}

fn is_view(kind: Kind) -> bool
    ensures { result ≡ is_view kind }
{
    matches!(kind, Kind::View)
}

/// How much of it an object is; none where that is 2^128 or more.
fn of_object(quantity: Quantity, object: &SeenObject) -> Option<u128>
    ensures { SomeIff result (of_object quantity object.now < 2 ^ 128) (of_object quantity object.now) }
{
    match quantity {
        Quantity::Functions => Some(0),
        Quantity::Scalars => Some(one_if(object.is_local && is_scalar(object.kind))),
        Quantity::Parameters => Some(0),
        Quantity::Data => object.elements.checked_mul(bytes_of(object.width)),
        Quantity::Statements => Some(0),
        Quantity::Views => Some(one_if(object.is_local && is_view(object.kind))),
    }
}

fn of_parameter(quantity: Quantity, param: &SeenParameter) -> u128
    ensures { result ≡ of_parameter quantity param.now }
{
    match quantity {
        Quantity::Functions => 0,
        Quantity::Scalars => one_if(param.is_defined && !param.is_view),
        Quantity::Parameters => 1,
        Quantity::Data => if param.is_defined && param.has_name && !param.is_view {
            bytes_of(param.width)
        } else {
            0
        },
        Quantity::Statements => 0,
        Quantity::Views => one_if(param.is_defined && param.is_view),
    }
}

fn of_function(quantity: Quantity, function: &SeenFunction) -> u128
    ensures { result ≡ of_function quantity function.now }
{
    match quantity {
        Quantity::Functions => one_if(function.is_new),
        _ => 0,
    }
}

fn of_statement(quantity: Quantity) -> u128
    ensures { result ≡ of_statement quantity }
{
    match quantity {
        Quantity::Statements => 1,
        _ => 0,
    }
}

/// How much of it this is; none where that is 2^128 or more.
fn amount(quantity: Quantity, seen: &Seen) -> Option<u128>
    ensures { SomeIff result (amount quantity seen.now < 2 ^ 128) (amount quantity seen.now) }
{
    match seen {
        Seen::Object(object) => of_object(quantity, object),
        Seen::Parameter(param) => Some(of_parameter(quantity, param)),
        Seen::Function(function) => Some(of_function(quantity, function)),
        Seen::Statement { .. } => Some(of_statement(quantity)),
        _ => Some(0),
    }
}

/// Where it stands.
fn place(seen: &Seen) -> At
    ensures { result ≡ place seen.now }
{
    match seen {
        Seen::Place(place) => place.at,
        Seen::Call(call) => call.at,
        Seen::NoView { at } => *at,
        Seen::Name { at, .. } => *at,
        Seen::Object(object) => object.at,
        Seen::Parameter(param) => param.at,
        Seen::Function(function) => function.at,
        Seen::Statement { at } => *at,
        Seen::Constant { at, .. } => *at,
        Seen::Leave { at, .. } => *at,
        Seen::Return { at, .. } => *at,
        Seen::End { at, .. } => *at,
    }
}

/// Whether it is counted in each function by itself.
fn is_by_function(quantity: Quantity) -> bool
    ensures { result ≡ is_by_function quantity }
{
    match quantity {
        Quantity::Scalars => true,
        Quantity::Parameters => true,
        Quantity::Views => true,
        _ => false,
    }
}

fn is_function(seen: &Seen) -> bool
    ensures { result ≡ is_function seen.now }
{
    match seen {
        Seen::Function(_) => true,
        _ => false,
    }
}

/// How much may still come, before this is counted.
fn left_at(quantity: Quantity, left: u128, seen: &Seen) -> u128
    ensures { result ≡ left_at quantity left seen.now }
{
    if is_by_function(quantity) && is_function(seen) {
        limit_of(quantity)
    } else {
        left
    }
}

/// How much may still come; none where this passes the limit.
fn left_after(quantity: Quantity, left: u128, seen: &Seen) -> Option<u128>
    ensures { result ≡ left_after (left_at quantity left seen.now) (amount quantity seen.now) }
{
    let left = left_at(quantity, left, seen);
    match amount(quantity, seen) {
        Some(amount) => left.checked_sub(amount),
        None => None,
    }
}

/// The token at which the quantity passes its limit, if it does.
pub(crate) fn passed(quantity: Quantity, seen: &[Seen]) -> Option<At>
    ensures { result ≡ passed quantity seen.now }
{
    let mut left = limit_of(quantity);
    for one in seen {
        match left_after(quantity, left, one) {
            Some(still) => left = still,
            None => return Some(place(one)),
        }
    }
    None
}

/// The relational constant that it is, with its first token.
fn constant_in(seen: &Seen) -> Option<(At, i32)>
    ensures constant { result ≡ constant_in seen.now }
    ensures fits { IfSome result (λ c. FitsSigned w32 c.1) }
{
    match seen {
        Seen::Constant { at, value } => Some((*at, *value)),
        _ => None,
    }
}

/// Counts a value, and answers whether it is a new one past the limit.
fn count(values: &mut BTreeSet<i32>, value: i32) -> Result<bool, Memory>
    ensures past { IfOk result (λ past. past ≡ is_one_too_many values.old.keys value) }
    ensures keys { OnOk result (values.new.keys ≡ insert_key int_cmp values.old.keys value) }
{
    let is_new = values.insert(value)?;
    Ok(is_new && values.len() > CONSTANTS)
}

/// The token of the relational constant that passes its limit, if one does.
pub(crate) fn constants_passed(alloc: Global, seen: &[Seen]) -> Result<Option<At>, Memory>
    ensures { IfOk result (λ at. at ≡ constants_passed seen.now) }
{
    let mut values = BTreeSet::new(alloc);
    for one in seen {
        match constant_in(one) {
            Some((at, value)) => if count(&mut values, value)? {
                return Ok(Some(at));
            },
            None => {},
        }
    }
    Ok(None)
}
