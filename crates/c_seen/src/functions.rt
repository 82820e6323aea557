// Declarations of functions, each beside those of its name before it.

ghost use Rattle.std.specs.Prelude.{◌≡◌, OnOk};
ghost use Rattle.std.specs.Option.{option_copied};
ghost use Rattle.c_seen.specs.Functions.{is_view, same_width, same_gives, same_parameter, same_parameters, is_alike, function_at, is_defined, is_unlike, differs, declaring_function};

use c_scopes::{Declared, Scopes};
use c_tree::{Function, Item, Param};
use sat_base::{Memory, Width};

/// What is known of a declaration of a function.
#[derive(Clone, Copy)]
pub struct Declaration {
    /// The number of the item that it is.
    pub item: usize,
    /// Whether it differs from a declaration of the same name before it.
    pub differs: bool,
    /// Whether it or one before it is a definition.
    pub is_defined: bool,
}

/// Whether the parameter is a view.
pub(crate) fn is_view(param: &Param) -> bool
    ensures { result ≡ is_view param.now }
{
    param.pointer || param.dim.is_some()
}

fn same_width(one: Width, other: Width) -> bool
    ensures { result ≡ same_width one other }
{
    match one {
        Width::W16 => matches!(other, Width::W16),
        Width::W32 => matches!(other, Width::W32),
    }
}

fn same_gives(one: Option<Width>, other: Option<Width>) -> bool
    ensures { result ≡ same_gives one other }
{
    match one {
        Some(one) => match other {
            Some(other) => same_width(one, other),
            None => false,
        },
        None => other.is_none(),
    }
}

fn same_parameter(one: &Param, other: &Param) -> bool
    ensures { result ≡ same_parameter one.now other.now }
{
    is_view(one) == is_view(other)
        && same_width(one.width, other.width)
        && one.is_const == other.is_const
}

#[tactic(auto, using(crate::proofs::Alike::pairs))]
fn same_parameters(some: &[Param], others: &[Param]) -> bool
    ensures { result ≡ same_parameters some.now others.now }
{
    if some.len() != others.len() {
        return false;
    }
    for place in 0..some.len() {
        if !same_parameter(&some[place], &others[place]) {
            return false;
        }
    }
    true
}

fn is_alike(one: &Function, other: &Function) -> bool
    ensures { result ≡ is_alike one.now other.now }
{
    same_gives(one.gives, other.gives)
        && same_parameters(one.params.as_slice(), other.params.as_slice())
}

/// The function that the item declares.
pub(crate) fn function_at<'a>(items: &'a [Item], item: usize) -> Option<&'a Function>
    ensures { option_copied result ≡ function_at items.now item }
{
    match items.get(item) {
        Some(Item::Function(function)) => Some(function),
        _ => None,
    }
}

/// Whether a function of this name is defined among these.
pub(crate) fn is_defined(functions: &Scopes<'_, Declaration>, name: &[u8]) -> bool
    ensures { result ≡ is_defined functions.now name.now }
{
    match functions.find(name) {
        Some(declared) => declared.what.is_defined,
        None => false,
    }
}

fn is_unlike(items: &[Item], item: usize, function: &Function) -> bool
    ensures { result ≡ is_unlike (function_at items.now item) function.now }
{
    match function_at(items, item) {
        Some(one) => !is_alike(one, function),
        None => false,
    }
}

/// Whether the function differs from one of these of the same name: from the newest, or as the newest does.
pub(crate) fn differs(
    items: &[Item],
    functions: &Scopes<'_, Declaration>,
    function: &Function,
) -> bool
    ensures { result ≡ differs items.now functions.now function.now }
{
    match functions.find(function.name.name.as_bytes()) {
        Some(declared) => declared.what.differs || is_unlike(items, declared.what.item, function),
        None => false,
    }
}

/// Declares one more, which is this item.
pub(crate) fn declare_function<'a>(
    items: &'a [Item],
    functions: &mut Scopes<'a, Declaration>,
    item: usize,
    function: &'a Function,
) -> Result<(), Memory>
    ensures { OnOk result (functions.new ≡ declaring_function items.now functions.old item function.now) }
{
    let name = function.name.name.as_bytes();
    let what = Declaration {
        item,
        differs: differs(items, functions, function),
        is_defined: function.body.is_some() || is_defined(functions, name),
    };
    functions.declare(name, Declared { depth: 0, what })
}
