// Places in objects, and what an argument gives.

/// An element of an object, by the number of the object and its place there, from 0, row by row. A view is
/// the element at which it begins; it may begin after the last one.
#[derive(Clone, Copy)]
pub struct Location {
    pub object: u32,
    pub offset: usize,
}

/// What a place is evaluated for.
#[derive(Clone, Copy)]
pub enum Access {
    /// To read or to write the element.
    Element,
    /// To take its address, which may lie after the last element.
    Address,
}

/// What an argument of a call, or an initial value, gives: a number, or a view.
#[derive(Clone, Copy)]
pub enum Given {
    Number(i32),
    View(Location),
}
