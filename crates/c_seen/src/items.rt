// What is seen in a whole source.
#![tactic(auto, using(crate::proofs::Sources_seen::sources))]

ghost use Rattle.std.specs.Prelude.{◌≡◌, ◌++◌, OnOk, IfOk};
ghost use Rattle.std.specs.List.{list_any};
ghost use Rattle.c_seen.specs.Declarations.{bad_length_of, parameter, meaning_of_parameter, seen_in_parameter, after_parameter, seen_in_parameters, after_parameters, name_of_parameter, after_named};
ghost use Rattle.c_seen.specs.Functions.{functions_of};
ghost use Rattle.c_seen.specs.Meanings.{names_of};
ghost use Rattle.c_seen.specs.Sources.{is_main, lacks_return, function_seen, seen_in_body, after_function, seen_in_function, seen_in_item, after_item, functions_after, seen_in_items, is_not_16, is_good_main, seen_of};

use crate::declarations::{dimension, objects};
use crate::functions::{Declaration, declare_function, differs, is_defined, is_view};
use crate::scope::Scope;
use crate::seen::{Kind, Meaning, Seen, SeenFunction, SeenParameter};
use crate::statements::{Spot, block};
use c_scopes::Scopes;
use c_tree::{Block, Function, Item, Param, Program};
use constant_expressions::surely_returns;
use declared_objects::is_bad;
use predefined_calls::callee_named;
use sat_base::{At, Memory, Named, Width};
use std::alloc::Global;

fn bad_length(param: &Param) -> Option<At>
    ensures { result ≡ bad_length_of param.now }
{
    match &param.dim {
        Some(dim) => if is_bad(dim) {
            match &param.name {
                Some(name) => Some(name.at),
                None => Some(dim.at),
            }
        } else {
            None
        },
        None => None,
    }
}

fn parameter_seen(param: &Param, is_defined: bool) -> SeenParameter
    ensures { result ≡ parameter param.now is_defined }
{
    SeenParameter {
        at: match &param.name {
            Some(name) => name.at,
            None => param.at,
        },
        has_name: param.name.is_some(),
        type_at: param.type_at,
        is_view: is_view(param),
        width: param.width,
        is_defined,
        bad_length: bad_length(param),
    }
}

fn meaning_of(param: &Param) -> Meaning
    ensures { result ≡ meaning_of_parameter param.now }
{
    Meaning::Object {
        kind: if is_view(param) {
            Kind::View
        } else {
            Kind::Scalar
        },
        width: param.width,
        is_const: param.is_const,
    }
}

fn name_if_any<'a>(
    scope: &mut Scope<'_, 'a>,
    name: &'a Option<Named>,
    what: Meaning,
    seen: &mut Vec<Seen>,
) -> Result<(), Memory>
    ensures seen { OnOk result (seen.new.items ≡ seen.old.items ++ name_of_parameter (names_of scope.old) name.now) }
    ensures names { OnOk result (names_of scope.new ≡ after_named (names_of scope.old) what name.now) }
{
    match name {
        Some(name) => {
            let bytes = name.name.as_bytes();
            seen.push(Seen::Name {
                at: name.at,
                is_taken: scope.is_taken(bytes, 1, false),
            })?;
            scope.declare(bytes, 1, what)
        },
        None => Ok(()),
    }
}

fn parameter<'a>(
    scope: &mut Scope<'_, 'a>,
    is_defined: bool,
    param: &'a Param,
    seen: &mut Vec<Seen>,
) -> Result<(), Memory>
    ensures seen { OnOk result (seen.new.items ≡ seen.old.items ++ seen_in_parameter (names_of scope.old) is_defined param.now) }
    ensures names { OnOk result (names_of scope.new ≡ after_parameter (names_of scope.old) param.now) }
{
    dimension(scope, &param.dim, seen)?;
    seen.push(Seen::Parameter(parameter_seen(param, is_defined)))?;
    name_if_any(scope, &param.name, meaning_of(param), seen)
}

fn parameters<'a>(
    scope: &mut Scope<'_, 'a>,
    is_defined: bool,
    params: &'a [Param],
    seen: &mut Vec<Seen>,
) -> Result<(), Memory>
    ensures seen { OnOk result (seen.new.items ≡ seen.old.items ++ seen_in_parameters (names_of scope.old) is_defined params.now) }
    ensures names { OnOk result (names_of scope.new ≡ after_parameters (names_of scope.old) params.now) }
{
    for param in params {
        parameter(scope, is_defined, param, seen)?;
    }
    Ok(())
}

fn is_main(function: &Function) -> bool
    ensures { result ≡ is_main function.now }
{
    function.name.name.as_bytes() == b"main".as_slice()
}

fn lacks_return(function: &Function) -> bool
    ensures { result ≡ lacks_return function.now }
{
    match &function.body {
        Some(body) => function.gives.is_some() && !is_main(function) && !surely_returns(body),
        None => false,
    }
}

fn function_seen(
    items: &[Item],
    earlier: &Scopes<'_, Declaration>,
    function: &Function,
) -> SeenFunction
    ensures { result ≡ function_seen items.now earlier.now function.now }
{
    let name = function.name.name.as_bytes();
    SeenFunction {
        at: function.name.at,
        is_new: callee_named(name).is_none() && earlier.find(name).is_none(),
        differs: differs(items, earlier, function),
        is_second: function.body.is_some() && is_defined(earlier, name),
        lacks_return: lacks_return(function),
    }
}

fn body_if_any<'a>(
    scope: &mut Scope<'_, 'a>,
    function: &'a Function,
    body: &'a Option<Block>,
    seen: &mut Vec<Seen>,
) -> Result<(), Memory>
    ensures seen { OnOk result (seen.new.items ≡ seen.old.items ++ seen_in_body (names_of scope.old) function.now body.now) }
    ensures names { OnOk result (names_of scope.new ≡ names_of scope.old) }
{
    match body {
        Some(body) => {
            let spot = Spot {
                depth: 1,
                in_loop: false,
                gives: function.gives.is_some(),
            };
            block(scope, spot, body, seen)
        },
        None => Ok(()),
    }
}

fn function<'a>(
    scope: &mut Scope<'_, 'a>,
    earlier: &Scopes<'a, Declaration>,
    item: usize,
    function: &'a Function,
    seen: &mut Vec<Seen>,
) -> Result<(), Memory>
    ensures seen { OnOk result (seen.new.items ≡ seen.old.items ++ seen_in_function (names_of scope.old) earlier.now item function.now) }
    ensures names { OnOk result (names_of scope.new ≡ after_function (names_of scope.old) item function.now) }
{
    let name = function.name.name.as_bytes();
    seen.push(Seen::Function(function_seen(scope.items, earlier, function)))?;
    seen.push(Seen::Name {
        at: function.name.at,
        is_taken: scope.is_taken(name, 0, true),
    })?;
    scope.declare(name, 0, Meaning::Function { item })?;
    let len = scope.len();
    parameters(
        scope,
        function.body.is_some(),
        function.params.as_slice(),
        seen,
    )?;
    body_if_any(scope, function, &function.body, seen)?;
    scope.leave(len);
    Ok(())
}

fn item<'a>(
    scope: &mut Scope<'_, 'a>,
    earlier: &mut Scopes<'a, Declaration>,
    number: usize,
    item: &'a Item,
    seen: &mut Vec<Seen>,
) -> Result<(), Memory>
    ensures seen { OnOk result (seen.new.items ≡ seen.old.items ++ seen_in_item (names_of scope.old) earlier.old number item.now) }
    ensures names { OnOk result (names_of scope.new ≡ after_item (names_of scope.old) number item.now) }
    ensures functions { OnOk result (earlier.new ≡ functions_after scope.old.items.now earlier.old number item.now) }
{
    let list = scope.items;
    match item {
        Item::Objects(declared) => objects(scope, 0, declared.decls.as_slice(), seen),
        Item::Function(declared) => {
            function(scope, earlier, number, declared, seen)?;
            declare_function(list, earlier, number, declared)
        },
        Item::ExternFlag { .. } => Ok(()),
    }
}

fn items<'a>(
    scope: &mut Scope<'_, 'a>,
    earlier: &mut Scopes<'a, Declaration>,
    items: &'a [Item],
    seen: &mut Vec<Seen>,
) -> Result<(), Memory>
    ensures { OnOk result (seen.new.items ≡ seen.old.items ++ seen_in_items (names_of scope.old) earlier.old 0 items.now) }
{
    for number in 0..items.len() {
        item(scope, earlier, number, &items[number], seen)?;
    }
    Ok(())
}

fn is_not_16(gives: Option<Width>) -> bool
    ensures { result ≡ is_not_16 gives }
{
    !matches!(gives, Some(Width::W16))
}

fn is_good_main(item: &Item) -> bool
    ensures { result ≡ is_good_main item.now }
{
    match item {
        Item::Function(function) => is_main(function)
            && function.body.is_some()
            && function.params.is_empty()
            && is_not_16(function.gives),
        _ => false,
    }
}

fn has_main(items: &[Item]) -> bool
    ensures { result ≡ list_any is_good_main items.now }
{
    for item in items {
        if is_good_main(item) {
            return true;
        }
    }
    false
}

fn functions_of<'a>(alloc: Global, items: &'a [Item]) -> Result<Scopes<'a, Declaration>, Memory>
    ensures { IfOk result (λ functions. functions ≡ functions_of items.now) }
{
    let mut functions = Scopes::new(alloc);
    for item in 0..items.len() {
        match &items[item] {
            Item::Function(function) => declare_function(items, &mut functions, item, function)?,
            Item::Objects(_) => {},
            Item::ExternFlag { .. } => {},
        }
    }
    Ok(functions)
}

/// All that is seen in the source, in the order of its tree.
pub fn seen_in(alloc: Global, program: &Program) -> Result<Vec<Seen>, Memory>
    ensures { IfOk result (λ seen. seen.items ≡ seen_of program.now) }
{
    let list = program.items.as_slice();
    let functions = functions_of(alloc, list)?;
    let mut scope = Scope {
        items: list,
        functions: &functions,
        names: Scopes::new(alloc),
    };
    let mut earlier = Scopes::new(alloc);
    let mut seen = Vec::new(alloc);
    items(&mut scope, &mut earlier, list, &mut seen)?;
    seen.push(Seen::End {
        at: At {
            tok: program.end_tok,
            pos: program.end,
        },
        has_main: has_main(list),
    })?;
    Ok(seen)
}
