// Where the newest declaration of a name stands among all that are in scope.

ghost use Rattle.std.specs.Prelude.{◌≡◌};
ghost use Rattle.c_scopes.specs.Newest.{place_in};

use indexmap::IndexMap;

/// The place of the newest declaration of the name, if one is in scope.
pub(crate) fn place_of(newest: &IndexMap<&[u8], Option<usize>>, name: &[u8]) -> Option<usize>
    ensures { result ≡ place_in newest.now name.now }
{
    match newest.get(name) {
        Some(place) => *place,
        None => None,
    }
}
