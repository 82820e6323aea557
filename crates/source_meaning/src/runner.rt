// Whole runs of a source.

ghost use Rattle.std.specs.Prelude.{◌≡◌, [], IfOk, OnErr, IsOk};
ghost use Rattle.source_runs.specs.Follows.{Follows};
ghost use Rattle.typed_meaning.specs.Observed.{source_run};
ghost use Rattle.source_meaning.specs.Running.{fresh, IsEndOf, IsObserved};

use crate::function::{function, main_of};
use c_typed::Typed;
use sat_base::Memory;
use source_expressions::Here;
use source_runs::{Halt, RunState};
use sqlite_items::Items;
use std::alloc::Global;
use std::marker::Model;

/// How a run ends.
#[derive(Clone, Copy, Debug, PartialEq, Eq)]
pub enum RunEnd {
    /// `main` was left.
    Ended {
        /// The value of Overflow.
        overflow: i32,
        /// The weighted count modulo 2^64.
        count: u64,
    },
    /// It stopped at a site.
    Stopped {
        /// The number of the site, from 0.
        site: u32,
    },
    /// A loop would begin one turn more than it may.
    Going,
}

/// A source with an input, to be run at any number of turns.
#[derive(Drop)]
pub struct Runner<'a> {
    typed: &'a Typed,
    input: &'a [i16],
    output: Vec<i16>,
}

impl<'a> Model for Runner<'a> {
    ghost use Rattle.source_meaning.specs.Running.{Running};

    ghost Value = { Running };

    ghost use Rattle.c_typed.specs.contracts.call.TypedArg as arg;
    ghost use Rattle.c_typed.specs.contracts.statement.TypedStmt as stmt;
    ghost use Rattle.std.specs.Coded.{codes};

    ghost coded = { Prim.hlevel (codes, arg.the_row.coded, stmt.the_row.coded) };

    ghost view = { λ r. record { source = r.typed.now; input = r.input.now; output = r.output.items } };
}

/// A runner of the source on the input, which has run nothing yet. It takes no memory.
pub fn start<'a>(alloc: Global, typed: &'a Typed, input: &'a [i16]) -> Result<Runner<'a>, Memory>
    ensures ready { IfOk result (λ runner. runner ≡ fresh typed.now input.now) }
    ensures ok { IsOk result }
{
    Ok(Runner {
        typed,
        input,
        output: Vec::new(alloc),
    })
}

/// What `main` does, from what is kept before it.
fn main_left(alloc: Global, typed: &Typed, turns: u32, state: &mut RunState) -> Result<i32, Halt>
    ensures { Follows (source_run typed.now turns) result state.old state.new }
{
    let functions = typed.functions.as_slice();
    let here = Here {
        alloc,
        typed,
        turns,
        depth: functions.len(),
    };
    match main_of(functions) {
        Some(number) => function(&here, state, number, Items::new(alloc)),
        None => Ok(0),
    }
}

/// How a run ends where `main` is left so, with this kept.
fn end_of(left: Result<i32, Halt>, state: &RunState) -> Result<RunEnd, Memory>
    ensures { IfOk result (IsEndOf left state.now) }
{
    match left {
        Ok(_) => Ok(RunEnd::Ended {
            overflow: state.overflow(),
            count: state.count(),
        }),
        Err(Halt::Stopped(site)) => Ok(RunEnd::Stopped { site }),
        Err(Halt::Going) => Ok(RunEnd::Going),
        Err(Halt::Memory) => Err(Memory),
    }
}

impl Runner<'_> {
    /// Runs the source from its beginning, where each activation of a loop may begin so many turns.
    pub fn run(&mut self, alloc: Global, turns: u32) -> Result<RunEnd, Memory>
        ensures source { self.new.source ≡ self.old.source }
        ensures input { self.new.input ≡ self.old.input }
        ensures answers { IfOk result (IsObserved self.old turns self.new) }
        ensures memory { OnErr result (self.new.output ≡ []) }
    {
        self.output = Vec::new(alloc);
        let mut state = RunState::new(alloc, self.typed.objects.as_slice(), self.input)?;
        let left = main_left(alloc, self.typed, turns, &mut state);
        let end = end_of(left, &state)?;
        self.output = state.into_output();
        Ok(end)
    }

    /// The output of the last run: none before the first, and none after `Memory`.
    pub fn output(&self) -> &[i16]
        ensures { result.now ≡ self.now.output }
    {
        self.output.as_slice()
    }
}
