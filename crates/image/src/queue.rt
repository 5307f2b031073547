//! The writes that wait, the oldest first.
ghost use Rattle.std.specs.Prelude.{◌≡◌, ◌+◌, ◌≤◌, [], ◌∷◌, ◌++◌, IfOk, MatchOption};
ghost use Rattle.std.specs.Option.{option_map};
ghost use Rattle.std.specs.VecDeque.{deque_len, deque_capacity};
ghost use Rattle.image.specs.Waiting.{newest_of, over, staying};

use crate::Pending;
use std::alloc::{AllocError, Global};
use std::collections::VecDeque;

/// At most 8 writes. Its memory is taken once, when it is made.
#[derive(Drop)]
pub struct Queue {
    items: VecDeque<Pending>,
    ghost few: { deque_len items ≤ 8 },
    ghost room: { 8 ≤ deque_capacity items },
}

impl Queue {
    pub fn new(heap: Global) -> Result<Queue, AllocError>
        ensures empty { IfOk result (λ q. q.items.items ≡ []) }
        ensures room { IfOk result (λ q. deque_capacity q.items ≡ 8) }
    {
        let items = VecDeque::with_capacity(heap, 8)?;
        Ok(Queue { items })
    }

    /// Adds a write. Where 8 wait already, the oldest comes out.
    pub fn admit(&mut self, write: Pending) -> Option<Pending>
        ensures out { result ≡ over 8 (self.old.items.items ++ write ∷ []) }
        ensures stay { self.new.items.items ≡ staying 8 (self.old.items.items ++ write ∷ []) }
    {
        let oldest = if self.items.len() < 8 {
            None
        } else {
            self.take()
        };
        self.items.push_back_reserved(write);
        oldest
    }

    /// Takes the oldest.
    pub fn take(&mut self) -> Option<Pending>
        ensures len { MatchOption result (deque_len self.old.items ≡ 0) (λ _. deque_len self.new.items + 1 ≡ deque_len self.old.items) }
        ensures cases { MatchOption result ((self.old.items.items ≡ []) × (self.new.items.items ≡ [])) (λ p. self.old.items.items ≡ p ∷ self.new.items.items) }
    {
        self.items.pop_front()
    }

    /// The newest write of a sector, lent.
    pub fn lend_newest(&self, sector: usize) -> Option<&Pending>
        ensures { option_map (λ p. p.now) result ≡ newest_of sector self.now.items.items }
    {
        self.items.iter().rev().find(|write| write.sector == sector)
    }

    /// The newest write of a sector.
    pub fn newest(&self, sector: usize) -> Option<Pending>
        ensures { result ≡ newest_of sector self.now.items.items }
    {
        self.lend_newest(sector).copied()
    }
}
