// What a run asks of an object.

ghost use Rattle.std.specs.Prelude.{◌≡◌};
ghost use Rattle.source_runs.specs.Shapes.{shape_of};

use operator_meaning::Object;
use sat_base::Width;

/// An object by its number, with its width, its dimensions and its kind. Rows and columns are those of
/// `Object`.
#[derive(Clone, Copy)]
pub struct Shape {
    pub object: u32,
    pub width: Width,
    pub rows: u32,
    pub columns: u32,
    pub view: bool,
}

impl Shape {
    /// That of the object of this number; of a scalar of 32 bits where there is none.
    pub fn of(objects: &[Object], number: u32) -> Shape
        ensures { result ≡ shape_of objects.now number }
    {
        match objects.get(number as usize) {
            Some(object) => Shape {
                object: number,
                width: object.width,
                rows: object.rows,
                columns: object.columns,
                view: object.view,
            },
            None => Shape {
                object: number,
                width: Width::W32,
                rows: 0,
                columns: 0,
                view: false,
            },
        }
    }
}
