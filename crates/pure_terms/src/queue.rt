// Lists whose items are taken from the front.
ghost use Rattle.std.specs.Prelude.{◌≡◌, [], ◌∷◌, ◌<◌, ◌^◌, slice_get, length, IfOk, MatchOption};
ghost use Rattle.std.specs.Option.{option_copied};

use sqlite_items::Items;
use std::alloc::{AllocError, Global};
use std::collections::VecDeque;
use std::marker::Model;

/// A list whose items are taken from the front, which contracts see as the list of what is left.
#[derive(Drop)]
pub(crate) struct Queue<T> {
    items: VecDeque<T>,
}

impl<T> Model for Queue<T> {
    ghost use Rattle.std.specs.Prelude.{List};

    ghost Value = { List T };

    ghost view = { λ q. q.items.items };
}

impl<T: Drop> Queue<T> {
    pub(crate) fn new(alloc: Global, items: Items<T>) -> Result<Queue<T>, AllocError>
        ensures queue { IfOk result (λ q. q ≡ items) }
        ensures few { length items < 2 ^ 64 }
    {
        let mut items = items;
        let mut queue = VecDeque::with_capacity(alloc, items.len())?;
        while let Some(item) = items.pop() {
            queue.push_front(item)?;
        }
        Ok(Queue { items: queue })
    }

    /// The first item, which stays.
    pub(crate) fn first(&self) -> Option<&T>
        ensures { option_copied result ≡ slice_get self.now 0 }
    {
        self.items.front()
    }

    pub(crate) fn pop(&mut self) -> Option<T>
        ensures { MatchOption result ((self.old ≡ []) × (self.new ≡ [])) (λ x. self.old ≡ x ∷ self.new) }
    {
        self.items.pop_front()
    }
}
