// Faults that are told of a token.
#![tactic(auto, using(crate::proofs::Firsts::firsts))]

ghost use Rattle.std.specs.Prelude.{◌≡◌};
ghost use Rattle.c_faults.specs.Rows.{at_if};
ghost use Rattle.c_faults.specs.Told.{told, first_among};

use sat_base::{At, Fault, FaultKind, lesser};

/// The token, where something applies there.
pub(crate) fn at_if(applies: bool, at: At) -> Option<At>
    ensures { result ≡ at_if applies at }
{
    if applies { Some(at) } else { None }
}

/// The fault at the token, where there is one.
pub(crate) fn told(kind: FaultKind, at: Option<At>) -> Option<Fault>
    ensures { result ≡ told kind at }
{
    match at {
        Some(at) => Some(Fault {
            kind,
            tok: at.tok,
            pos: at.pos,
        }),
        None => None,
    }
}

/// The first of these, of those that are there.
pub(crate) fn first_among(faults: &[Option<Fault>]) -> Option<Fault>
    ensures { result ≡ first_among faults.now }
{
    let mut first = None;
    for fault in faults {
        first = lesser(first, *fault);
    }
    first
}
