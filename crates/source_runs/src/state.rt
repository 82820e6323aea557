// What a run keeps.

ghost use Rattle.std.specs.Prelude.{◌≡◌, ◌<◌, ◌^◌, IfOk, length, List};
ghost use Rattle.operator_meaning.specs.Table.{FitsWidth};
ghost use Rattle.source_runs.specs.State.{converted, number_at, numbers_of, view_of, written, with_numbers, with_view, with_overflow, raised, counted, put};
ghost use Rattle.source_runs.specs.Calls.{next_sample, after_sample, one_where_some};

use crate::location::Location;
use sat_base::{Width, low16};
use sqlite_items::Items;
use std::alloc::AllocError;
use std::marker::Model;

/// What a run keeps: the numbers of each object and the element at which each view begins, by the numbers of
/// the objects; Overflow, the weighted count modulo 2^64, the samples that are left, and the output.
#[derive(Drop)]
pub struct RunState {
    pub(crate) numbers: Vec<Items<i32>>,
    pub(crate) views: Vec<Location>,
    pub(crate) overflow: i32,
    pub(crate) count: u64,
    pub(crate) input: Vec<i16>,
    pub(crate) taken: usize,
    pub(crate) output: Vec<i16>,
}

impl Model for RunState {
    ghost use Rattle.std.specs.Prelude.{drop};
    ghost use Rattle.source_runs.specs.State.{Kept};

    ghost Value = { Kept };

    ghost view = { λ s. record { numbers = s.numbers.items; views = s.views.items; overflow = s.overflow; count = s.count; left = drop s.taken s.input.items; output = s.output.items } };
}

/// The number, converted to the width: of 16 bits the low ones, read as signed.
pub fn convert(width: Width, value: i32) -> i32
    ensures value { result ≡ converted width value }
    ensures fits { FitsWidth width result }
{
    match width {
        Width::W16 => low16(value),
        Width::W32 => value,
    }
}

impl RunState {
    /// The numbers of an object, none where there is no such object.
    fn numbers_of(&self, object: u32) -> &[i32]
        ensures { result.now ≡ numbers_of object self.now }
    {
        match self.numbers.get(object as usize) {
            Some(numbers) => numbers.as_slice(),
            None => &[],
        }
    }

    /// The number of an element; 0 where there is none.
    pub fn number_at(&self, at: Location) -> i32
        ensures { result ≡ number_at at self.now }
    {
        match self.numbers_of(at.object).get(at.offset) {
            Some(number) => *number,
            None => 0,
        }
    }

    /// The number of elements of an object.
    pub fn elements_of(&self, object: u32) -> usize
        ensures value { result ≡ length (numbers_of object self.now) }
        ensures bound { result < 2 ^ 63 }
    {
        self.numbers_of(object).len()
    }

    /// Where a view begins.
    pub fn view_of(&self, object: u32) -> Location
        ensures { result ≡ view_of object self.now }
    {
        match self.views.get(object as usize) {
            Some(at) => *at,
            None => Location {
                object: 0,
                offset: 0,
            },
        }
    }

    /// Writes the number, converted to the width, into an element.
    pub fn write(&mut self, width: Width, at: Location, value: i32)
        ensures { self.new ≡ written width at value self.old }
    {
        if at.offset < self.elements_of(at.object) {
            self.numbers[at.object as usize].set(at.offset, convert(width, value));
        }
    }

    /// Gives an object these numbers.
    pub fn set_numbers(&mut self, object: u32, numbers: Items<i32>)
        ensures { self.new ≡ with_numbers object numbers self.old }
    {
        let object = object as usize;
        if object < self.numbers.len() {
            self.numbers[object] = numbers;
        }
    }

    /// Lets a view begin there.
    pub fn set_view(&mut self, object: u32, at: Location)
        ensures { self.new ≡ with_view object at self.old }
    {
        let object = object as usize;
        if object < self.views.len() {
            self.views[object] = at;
        }
    }

    /// The value of Overflow.
    pub fn overflow(&self) -> i32
        ensures { result ≡ self.now.overflow }
    {
        self.overflow
    }

    /// Assigns to Overflow.
    pub fn set_overflow(&mut self, value: i32)
        ensures { self.new ≡ with_overflow value self.old }
    {
        self.overflow = value;
    }

    /// Sets Overflow to 1 where an operator does.
    pub fn raise(&mut self, raises: bool)
        ensures { self.new ≡ raised raises self.old }
    {
        if raises {
            self.overflow = 1;
        }
    }

    /// The weighted count, modulo 2^64.
    pub fn count(&self) -> u64
        ensures { result ≡ self.now.count }
    {
        self.count
    }

    /// Adds to the weighted count.
    pub fn add_to_count(&mut self, weight: u32)
        ensures { self.new ≡ counted weight self.old }
    {
        self.count = self.count.wrapping_add(u64::from(weight));
    }

    /// Takes the next sample; none where no sample is left, and then nothing changes.
    pub fn take_sample(&mut self) -> Option<i32>
        ensures sample { result ≡ next_sample self.old }
        ensures rest { self.new ≡ after_sample self.old }
    {
        let sample = i32::from(*self.input.get(self.taken)?);
        self.taken += 1;
        Some(sample)
    }

    /// 1 where at least one sample is left, else 0.
    pub fn sample_left(&self) -> i32
        ensures { result ≡ one_where_some self.now.left }
    {
        match self.input.get(self.taken) {
            Some(_) => 1,
            None => 0,
        }
    }

    /// Appends the low 16 bits of the number to the output.
    pub fn put(&mut self, value: i32) -> Result<(), AllocError>
        ensures { IfOk result (λ _. self.new ≡ put value self.old) }
    {
        self.output.push(low16(value) as i16)?;
        Ok(())
    }

    /// The output so far.
    pub fn output(&self) -> &[i16]
        ensures { result.now ≡ self.now.output }
    {
        self.output.as_slice()
    }

    /// The output alone.
    pub fn into_output(self) -> Vec<i16>
        ensures { result.items ≡ self.output }
    {
        let RunState { output, .. } = self;
        output
    }
}
