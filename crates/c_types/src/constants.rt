// The relational constants of a source.

ghost use Rattle.std.specs.Prelude.{◌≡◌, ◌++◌, IfOk, OnOk};
ghost use Rattle.std.specs.BTreeSet.{insert_key};
ghost use Rattle.std.specs.Ordering.{int_cmp};
ghost use Rattle.c_types.specs.Constants.{constant_in, new_value, new_constant, with_constant, constants_of};

use c_seen::Seen;
use sat_base::Memory;
use sqlite_items::Items;
use std::alloc::Global;
use std::collections::BTreeSet;

/// Adds the value to the constants where it is not among these values, and then to these.
fn add(values: &mut BTreeSet<i32>, constants: &mut Items<i32>, value: i32) -> Result<(), Memory>
    ensures values { OnOk result (values.new.keys ≡ insert_key int_cmp values.old.keys value) }
    ensures constants { OnOk result (constants.new ≡ constants.old ++ new_value values.old.keys value) }
{
    if values.insert(value)? {
        constants.push(value)?;
    }
    Ok(())
}

/// The same of what is seen, where it is a relational constant.
fn add_if(values: &mut BTreeSet<i32>, constants: &mut Items<i32>, seen: &Seen) -> Result<(), Memory>
    ensures values { OnOk result (values.new.keys ≡ with_constant values.old.keys (constant_in seen.now)) }
    ensures constants { OnOk result (constants.new ≡ constants.old ++ new_constant values.old.keys (constant_in seen.now)) }
{
    match seen {
        Seen::Constant { value, .. } => add(values, constants, *value),
        _ => Ok(()),
    }
}

/// The distinct relational constants, in the order in which they first stand.
pub(crate) fn constants(alloc: Global, seen: &[Seen]) -> Result<Items<i32>, Memory>
    ensures { IfOk result (λ constants. constants ≡ constants_of seen.now) }
{
    let mut values = BTreeSet::new(alloc);
    let mut constants = Items::new(alloc);
    for one in seen {
        add_if(&mut values, &mut constants, one)?;
    }
    Ok(constants)
}
