// How objects come to their values.

ghost use Rattle.std.specs.Prelude.{◌≡◌, IfOk, replicate, ◌*◌};
ghost use Rattle.source_runs.specs.Shapes.{elements_of, opening_of};
ghost use Rattle.source_runs.specs.Steps.{given_to, given_to_all, opened, opening_state};

use crate::location::{Given, Location};
use crate::shape::Shape;
use crate::state::{RunState, convert};
use operator_meaning::{Object, Storage};
use sqlite_items::Items;
use std::alloc::{AllocError, Global};

/// The number of elements of an object.
fn elements(object: &Object) -> usize
    ensures { result ≡ elements_of object.now }
{
    match (object.rows, object.columns) {
        (0, _) => 1,
        (rows, 0) => rows as usize,
        (rows, columns) => rows as usize * columns as usize,
    }
}

/// What an object starts with that has no value to evaluate.
fn opening(alloc: Global, object: &Object) -> Result<Items<i32>, AllocError>
    ensures { IfOk result (λ numbers. numbers ≡ opening_of object.now) }
{
    match &object.initial {
        Some(values) => Items::from_slice(alloc, values.as_slice()),
        None => Ok(Items::from_vec(vec![in alloc; 0; elements(object)]?)),
    }
}

impl RunState {
    /// Gives a number, which is converted to the object's width, or a view to an object.
    pub fn give(&mut self, alloc: Global, shape: Shape, given: Given) -> Result<(), AllocError>
        ensures { IfOk result (λ _. self.new ≡ given_to shape given self.old) }
    {
        match given {
            Given::Number(value) => {
                let number = convert(shape.width, value);
                self.set_numbers(shape.object, Items::from_slice(alloc, &[number])?);
            }
            Given::View(at) => self.set_view(shape.object, at),
        }
        Ok(())
    }

    /// Gives each parameter what the argument at its place gives.
    pub fn give_all(
        &mut self,
        alloc: Global,
        objects: &[Object],
        params: &[u32],
        givens: &[Given],
    ) -> Result<(), AllocError>
        ensures { IfOk result (λ _. self.new ≡ given_to_all objects.now params.now givens.now self.old) }
    {
        let mut left = givens;
        for param in params {
            let Some((given, more)) = left.split_first() else {
                return Ok(());
            };
            self.give(alloc, Shape::of(objects, *param), *given)?;
            left = more;
        }
        Ok(())
    }

    /// Lets the object of this number start anew, unless it is static.
    pub fn open(&mut self, alloc: Global, objects: &[Object], number: u32) -> Result<(), AllocError>
        ensures { IfOk result (λ _. self.new ≡ opened objects.now number self.old) }
    {
        let Some(object) = objects.get(number as usize) else {
            return Ok(());
        };
        match object.storage {
            Storage::Static => {}
            Storage::Automatic | Storage::Parameter => self.set_numbers(
                number,
                opening(alloc, object)?,
            ),
        }
        Ok(())
    }

    /// What a run keeps before its first step, over these objects and samples.
    pub fn new(alloc: Global, objects: &[Object], input: &[i16]) -> Result<RunState, AllocError>
        ensures { IfOk result (λ state. state ≡ opening_state objects.now input.now) }
    {
        let nowhere = Location {
            object: 0,
            offset: 0,
        };
        let mut numbers = Vec::new(alloc);
        for object in objects {
            numbers.push(opening(alloc, object)?)?;
        }
        Ok(RunState {
            numbers,
            views: vec![in alloc; nowhere; objects.len()]?,
            overflow: 0,
            count: 0,
            input: Vec::from_slice(alloc, input)?,
            taken: 0,
            output: Vec::new(alloc),
        })
    }
}
