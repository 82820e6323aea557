// Calls that are to fail.

ghost use Rattle.std.specs.Prelude.{◌≡◌, ◌≤◌, IsSome, IfOk};
ghost use Rattle.store_io.specs.Failing.{failing_at, fails_now, next_call, failed_before, taken_of};
ghost use Rattle.store_io.specs.Outside.{Rose};

use sat_base::Memory;
use sqlite_items::Items;
use std::alloc::Global;

/// A call of a store or a sink in memory that is to fail.
#[derive(Clone, Copy, Debug, PartialEq, Eq)]
pub struct Failing {
    /// The number of the call, from 0. At 2^64 - 1, where the numbers stand still, no call fails.
    pub call: u64,
    /// How many bytes a write takes before it fails. It takes all of its bytes where they are fewer, and a
    /// read takes none.
    pub taken: u64,
}

/// The calls that are to fail, and the number of the next call, which stands still at 2^64 - 1.
#[derive(Debug, Drop)]
pub(crate) struct Calls {
    failing: Items<Failing>,
    next: u64,
}

impl Calls {
    /// No call is made yet.
    pub(crate) fn new(alloc: Global, failing: &[Failing]) -> Result<Calls, Memory>
        ensures { IfOk result (λ calls. calls ≡ record { failing = failing.now; next = 0 }) }
    {
        Ok(Calls {
            failing: Items::from_slice(alloc, failing)?,
            next: 0,
        })
    }

    /// Makes the next call. Where it is to fail, the answer is how many bytes it takes.
    pub(crate) fn make(&mut self) -> Option<u64>
        ensures fails { result ≡ fails_now self.old.failing self.old.next }
        ensures made { self.new ≡ record { failing = self.old.failing; next = next_call self.old.next } }
        ensures later { failed_before self.old.failing self.old.next ≤ failed_before self.new.failing self.new.next }
        ensures rose { IsSome result → Rose (failed_before self.old.failing self.old.next) (failed_before self.new.failing self.new.next) }
    {
        let call = self.next;
        let next = call.checked_add(1)?;
        self.next = next;
        taken_at(self.failing.as_slice(), call)
    }
}

fn taken_at(failing: &[Failing], call: u64) -> Option<u64>
    ensures { result ≡ failing_at failing.now call }
{
    failing
        .iter()
        .find(|one| one.call == call)
        .map(|one| one.taken)
}

/// The bytes that a write takes: those before it fails, or all.
pub(crate) fn bytes_taken(bytes: &[u8], fails: Option<u64>) -> &[u8]
    ensures { result.now ≡ taken_of fails bytes.now }
{
    match fails {
        Some(taken) if taken < bytes.len() as u64 => &bytes[..taken as usize],
        _ => bytes,
    }
}
