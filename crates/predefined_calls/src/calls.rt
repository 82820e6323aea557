// The predefined calls by their names, with what they take and give.

ghost use Rattle.std.specs.Prelude.{◌≡◌, ◌<◌, length};
ghost use Rattle.operator_meaning.specs.Table.{width_at};
ghost use Rattle.predefined_calls.specs.Calls.{other_call, operator_of, callee_of, gives_of, takes_of};

use c_typed::Callee;
use operator_meaning::{Op, of_name};
use sat_base::Width;

/// The call of this name that is no operator.
#[tactic(auto, unfolding(crate::specs::Calls::other_call))]
fn other_call(name: &[u8]) -> Option<Callee>
    ensures { result ≡ other_call name.now }
{
    if name == b"move16".as_slice() {
        Some(Callee::Move16)
    } else if name == b"move32".as_slice() {
        Some(Callee::Move32)
    } else if name == b"logic16".as_slice() {
        Some(Callee::Logic16)
    } else if name == b"logic32".as_slice() {
        Some(Callee::Logic32)
    } else if name == b"test".as_slice() {
        Some(Callee::Test)
    } else if name == b"sample_in".as_slice() {
        Some(Callee::SampleIn)
    } else if name == b"sample_left".as_slice() {
        Some(Callee::SampleLeft)
    } else if name == b"sample_out".as_slice() {
        Some(Callee::SampleOut)
    } else {
        None
    }
}

/// The operator of this name.
fn operator(name: &[u8]) -> Option<Op>
    ensures { result ≡ operator_of name.now }
{
    match str::from_utf8(name) {
        Ok(text) => of_name(text),
        Err(_) => None,
    }
}

/// What is called by a predefined name; none where the name is not predefined.
pub fn callee_named(name: &[u8]) -> Option<Callee>
    ensures { result ≡ callee_of name.now }
{
    if let Some(callee) = other_call(name) {
        return Some(callee);
    }
    match operator(name) {
        Some(op) => Some(Callee::Operator(op)),
        None => None,
    }
}

/// The width of the number that a predefined call gives. None is `void`; it stands for functions of the
/// source too, whose declarations say it.
pub fn gives(callee: Callee) -> Option<Width>
    ensures { result ≡ gives_of callee }
{
    match callee {
        Callee::Operator(op) => Some(operator_meaning::gives(op)),
        Callee::SampleIn => Some(Width::W16),
        Callee::SampleLeft => Some(Width::W32),
        _ => None,
    }
}

/// The number of arguments that a predefined call takes; 0 for functions of the source.
pub fn arity(callee: Callee) -> u32
    ensures { result ≡ length (takes_of callee) }
{
    match callee {
        Callee::Operator(op) => operator_meaning::arity(op),
        Callee::SampleOut => 1,
        _ => 0,
    }
}

/// The width of the argument at the place, counted from 0.
pub fn takes(callee: Callee, place: u32) -> Width
    requires { place < length (takes_of callee) }
    ensures { result ≡ width_at (takes_of callee) place }
{
    match callee {
        Callee::Operator(op) => operator_meaning::takes(op, place),
        _ => Width::W16,
    }
}
