// What a run looks up.

ghost use Rattle.std.specs.Prelude.{◌≡◌};
ghost use Rattle.source_runs.specs.Shapes.{shape_of};

use c_typed::Typed;
use operator_meaning::Object;
use source_runs::Shape;
use std::alloc::Global;

/// What a run looks up and does not change.
#[derive(Clone, Copy)]
pub struct Here<'a> {
    pub alloc: Global,
    /// The source.
    pub typed: &'a Typed,
    /// The number of turns that each activation of a loop may begin.
    pub turns: u32,
    /// The number of functions that may be entered in one another from here on.
    pub depth: usize,
}

impl<'a> Here<'a> {
    /// The objects of the source.
    pub fn objects(&self) -> &'a [Object]
        ensures { result.now ≡ self.now.typed.now.objects }
    {
        self.typed.objects.as_slice()
    }

    /// What a run asks of the object of this number.
    pub fn shape(&self, object: u32) -> Shape
        ensures { result ≡ shape_of self.now.typed.now.objects object }
    {
        Shape::of(self.objects(), object)
    }
}
