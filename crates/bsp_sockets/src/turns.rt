//! The order in which connections have their turns.

ghost use Rattle.std.specs.Prelude.{◌≡◌, ◌-◌, ◌<◌, ◌≤◌, ◌==◌, true, false, [], ◌∷◌, ◌++◌, IsSome, IfSome, IfNone};
ghost use Rattle.std.specs.VecDeque.{deque_len};

use std::alloc::Global;
use std::collections::VecDeque;

/// The least turns of a round, so that few connections do not ask the system for each turn.
const TURNS: usize = 32;

/// The connections whose turns come, first in first out, and how many turns this round still has.
#[derive(Drop)]
pub(crate) struct Turns {
    pub(crate) queue: VecDeque<u64>,
    pub(crate) left: usize,
}

impl Turns {
    /// No connection.
    pub(crate) fn new(alloc: Global) -> Turns
        ensures { result.queue.items ≡ [] }
    {
        Turns {
            queue: VecDeque::new(alloc),
            left: 0,
        }
    }

    /// Whether no turn comes.
    pub(crate) fn is_empty(&self) -> bool
        ensures { result ≡ (deque_len self.now.queue == 0) }
    {
        self.queue.is_empty()
    }

    /// Makes room for the turns of so many more. Answers whether there was memory.
    pub(crate) fn reserve(&mut self, count: usize) -> bool
        ensures { self.new.queue.items ≡ self.old.queue.items }
    {
        self.queue.reserve(count).is_ok()
    }

    /// Puts a connection after all others. Answers whether there was memory.
    pub(crate) fn push(&mut self, number: u64) -> bool
        ensures last { result ≡ true → self.new.queue.items ≡ self.old.queue.items ++ number ∷ [] }
        ensures refused { result ≡ false → self.new.queue.items ≡ self.old.queue.items }
        ensures round { self.new.left ≡ self.old.left }
    {
        match self.queue.push_back(number) {
            Ok(()) => true,
            Err(_) => false,
        }
    }

    /// The connection whose turn it is in this round.
    pub(crate) fn take(&mut self) -> Option<u64>
        ensures first { IfSome result (λ number. self.old.queue.items ≡ number ∷ self.new.queue.items) }
        ensures some { 0 < self.old.left → 0 < deque_len self.old.queue → IsSome result }
        ensures round { self.new.left ≡ self.old.left - 1 }
        ensures over { IfNone result (self.new.queue.items ≡ self.old.queue.items) }
    {
        self.left = self.left.checked_sub(1)?;
        self.queue.pop_front()
    }

    /// Begins a round: a turn of each connection whose turn comes by now, and where these are few, further turns.
    pub(crate) fn begin_round(&mut self)
        ensures queue { self.new.queue.items ≡ self.old.queue.items }
        ensures few { deque_len self.old.queue < TURNS → self.new.left ≡ TURNS }
        ensures many { TURNS ≤ deque_len self.old.queue → self.new.left ≡ deque_len self.old.queue }
    {
        let count = self.queue.len();
        self.left = if count < TURNS { TURNS } else { count };
    }
}
