// Where the values of a tree lie.

ghost use Rattle.std.specs.Prelude.{◌≡◌};
ghost use Rattle.code_stacks.specs.Places.{Layout};
ghost use Rattle.data_layout.specs.Layouts.{layout_of};

use sqlite_items::Items;

/// Where the values of a tree lie in the data memory.
#[derive(Drop)]
pub struct DataLayout {
    /// The slot of each object that is a scalar variable, by the number of the object. None of others.
    pub slots: Items<Option<u32>>,
    /// Where the words of the values begin that have no register.
    pub kept: u32,
    /// How many values there are at once, with those in registers.
    pub depth: u32,
    /// The bytes of the data memory.
    pub size: u32,
    /// Whether a site has no words, by its number.
    pub wordless: Items<bool>,
}

impl DataLayout {
    /// The slot of an object; 0 where it has none.
    pub fn slot(&self, object: u32) -> u32
        ensures { result ≡ (layout_of self.now).slot object }
    {
        match self.slots.as_slice().get(object as usize) {
            Some(Some(slot)) => *slot,
            Some(None) | None => 0,
        }
    }
}
