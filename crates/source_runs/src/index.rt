// Views and indices.

ghost use Rattle.std.specs.Prelude.{◌≡◌, ◌<◌, ◌^◌, pos, ◌+ℤ◌};
ghost use Rattle.source_runs.specs.Steps.{inside, edge, moved, in_array, place_of, in_row, named, pointed};

use crate::location::{Access, Location};
use crate::shape::Shape;
use crate::state::RunState;

impl Access {
    /// How many places after the last element are allowed.
    fn edge(self) -> usize
        ensures value { result ≡ edge self }
        ensures bound { result < 2 }
    {
        match self {
            Access::Element => 0,
            Access::Address => 1,
        }
    }
}

/// The index, where it lies from 0 up to, but not including, the number.
fn inside(index: i32, number: usize) -> Option<u32>
    ensures { result ≡ inside index number }
{
    if index < 0 {
        return None;
    }
    let index = index as u32;
    if (index as usize) < number {
        Some(index)
    } else {
        None
    }
}

/// The offset that lies so many elements further, where it is from 0 up to, but not including, the number.
fn further(offset: usize, by: i32, number: usize) -> Option<usize>
    ensures { result ≡ inside (pos offset +ℤ by) number }
{
    let to = if by < 0 {
        offset.checked_sub(by.unsigned_abs() as usize)?
    } else {
        offset.checked_add(by as usize)?
    };
    if to < number { Some(to) } else { None }
}

/// The row of an array of two dimensions; none where the index is not inside the rows.
pub fn row_of(shape: Shape, index: i32) -> Option<u32>
    ensures { result ≡ inside index shape.rows }
{
    inside(index, shape.rows as usize)
}

/// The element at the second index of an array of two dimensions, or its address; none where the index is
/// not inside the columns.
pub fn in_row(access: Access, shape: Shape, row: u32, index: i32) -> Option<Location>
    ensures { result ≡ in_row access shape row index }
{
    let column = inside(index, shape.columns as usize + access.edge())?;
    Some(Location {
        object: shape.object,
        offset: row as usize * shape.columns as usize + column as usize,
    })
}

/// The element at the index of a named array of one dimension, or its address; of one of two, the row.
fn in_array(access: Access, shape: Shape, index: i32) -> Option<Location>
    ensures { result ≡ in_array access shape index }
{
    if shape.columns == 0 {
        let offset = inside(index, shape.rows as usize + access.edge())?;
        return Some(Location {
            object: shape.object,
            offset: offset as usize,
        });
    }
    let row = inside(index, shape.rows as usize)?;
    Some(Location {
        object: shape.object,
        offset: row as usize * shape.columns as usize,
    })
}

impl RunState {
    /// The element so many elements after the one at which a view begins, or its address.
    fn moved(&self, access: Access, index: i32, from: Location) -> Option<Location>
        ensures { result ≡ moved access index from self.now }
    {
        let elements = self.elements_of(from.object) + access.edge();
        let offset = further(from.offset, index, elements)?;
        Some(Location {
            object: from.object,
            offset,
        })
    }

    /// The element at the index of a view or a named array, or its address; none where it is not inside.
    pub fn place_of(&self, access: Access, shape: Shape, index: i32) -> Option<Location>
        ensures { result ≡ place_of access shape index self.now }
    {
        if shape.view {
            self.moved(access, index, self.view_of(shape.object))
        } else {
            in_array(access, shape, index)
        }
    }

    /// Where a view begins; of any other object the first element.
    pub fn named(&self, shape: Shape) -> Location
        ensures { result ≡ named shape self.now }
    {
        if shape.view {
            self.view_of(shape.object)
        } else {
            Location {
                object: shape.object,
                offset: 0,
            }
        }
    }

    /// The element at which a view or an array begins; none where a view begins after its object's last one.
    pub fn pointed(&self, shape: Shape) -> Option<Location>
        ensures { result ≡ pointed shape self.now }
    {
        self.moved(Access::Element, 0, self.named(shape))
    }
}
