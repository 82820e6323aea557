// Which objects have homes.

ghost use Rattle.std.specs.Prelude.{◌≡◌};
ghost use Rattle.register_allocation.specs.Claims.{claim_in, claim_of, bytes_of_claim};

use ir_cuts::is_tracked;
use operator_meaning::Object;

/// What an object that has a home asks for.
#[derive(Clone, Copy, Debug, PartialEq, Eq)]
pub struct Claim {
    /// The function that it belongs to.
    pub function: u32,
    /// Whether it is a view, and else a tracked variable.
    pub view: bool,
}

impl Claim {
    /// The bytes of its slot.
    pub fn bytes(self) -> u32
        ensures { result ≡ bytes_of_claim self }
    {
        if self.view { 12 } else { 4 }
    }
}

/// What the object of this number asks for. None is no home: it is a static object, an array, or a scalar to which
/// `&` is applied.
pub fn claim_of(objects: &[Object], number: u32) -> Option<Claim>
    ensures { result ≡ claim_of objects.now number }
{
    match objects.get(number as usize) {
        Some(object) => claim_in(object.function, object.view, is_tracked(objects, number)),
        None => None,
    }
}

fn claim_in(function: Option<u32>, view: bool, tracked: bool) -> Option<Claim>
    ensures { result ≡ claim_in function view tracked }
{
    match function {
        Some(function) => {
            if view || tracked {
                Some(Claim { function, view })
            } else {
                None
            }
        }
        None => None,
    }
}
