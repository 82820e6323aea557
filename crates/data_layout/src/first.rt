// What the data memory first holds.

ghost use Rattle.std.specs.Prelude.{◌≡◌, ◌∷◌, [], ◌+◌, ◌≤◌, length, is_some, IfOk, IfSome, IsTrue};
ghost use Rattle.operator_meaning.specs.Table.{FitsWidth};
ghost use Rattle.source_runs.specs.Shapes.{opening_of};
ghost use Rattle.lawful_sources.specs.Objects.{is_scalar, initial_fits};
ghost use Rattle.code_memory.specs.Memory.{with_word_in};
ghost use Rattle.program_code.specs.Laws.{IsFirst};
ghost use Rattle.data_layout.specs.Layouts.{layout_of};
ghost use Rattle.data_layout.specs.Laid.{IsLaidFor, HasVariables, BeginRight};

use crate::layout::DataLayout;
use operator_meaning::Object;
use sat_base::Memory;
use sqlite_items::Items;
use std::alloc::Global;

/// The bytes of the data memory before a run: each variable begins with its initial value, or with 0. A word is
/// little-endian.
pub fn first_memory(
    alloc: Global,
    objects: &[Object],
    layout: &DataLayout,
) -> Result<Items<u8>, Memory>
    requires laid { IsLaidFor (layout_of layout.now) }
    requires variables { HasVariables objects.now (layout_of layout.now) }
    requires begin { BeginRight objects.now }
    ensures { IfOk result (λ memory. IsFirst objects.now (layout_of layout.now) memory) }
{
    let mut memory = vec![in alloc; 0; layout.size as usize]?;
    for (number, object) in objects.iter().enumerate() {
        match word_of(layout, number) {
            Some(slot) => set_word(&mut memory, slot, first_value(object)),
            None => {}
        }
    }
    Ok(Items::from_vec(memory))
}

/// The slot of the object of this number, if it is a variable.
fn word_of(layout: &DataLayout, number: usize) -> Option<u32>
    ensures variable { is_some result ≡ (layout_of layout.now).is_variable number }
    ensures slot { IfSome result (λ slot. slot ≡ (layout_of layout.now).slot number) }
{
    match layout.slots.as_slice().get(number) {
        Some(slot) => *slot,
        None => None,
    }
}

/// The value with which a variable begins.
fn first_value(object: &Object) -> i32
    requires scalar { IsTrue (is_scalar object.now) }
    requires fits { IsTrue (initial_fits object.now object.now.initial) }
    ensures opening { opening_of object.now ≡ result ∷ [] }
    ensures fits { FitsWidth object.now.width result }
{
    match &object.initial {
        Some(values) => values.as_slice()[0],
        None => 0,
    }
}

/// Writes a number into the word that begins at this byte.
fn set_word(memory: &mut [u8], slot: u32, value: i32)
    requires { slot + 4 ≤ length memory.old }
    ensures { memory.new ≡ with_word_in memory.old slot value }
{
    let place = slot as usize;
    memory[place..place + 4].copy_from_slice(&value.cast_unsigned().to_le_bytes());
}
