// The newest element first. It shares no inner part with `Oldest`: that would state the clauses of each call once more.
ghost use Rattle.std.specs.Prelude.{◌≡◌, ◌+◌, ◌≤◌, false, length, is_some, is_ok, if◌then◌else◌};
ghost use Rattle.bags.specs.Bags.{bag, none, size};
ghost use Rattle.bags.proofs.Views.{stacked_within};
ghost use Rattle.lists.specs.Calls.{put_answer, put_waits, put_order, Taken, TakenNewest};

use crate::waiting::WaitingList;
use meaning::refusal::Refusal;

// A stack: the oldest element is in the first cell, the newest in the one before `count`. The cells are the caller's, with no
// heap, so the count stands beside them.
#[derive(Drop)]
pub struct Newest<'a, T> {
    cells: &'a mut [T],
    count: usize,
    ghost fits: { count ≤ length cells.now },
}

impl<'a, T: Copy> Newest<'a, T> {
    ghost use Rattle.lists.specs.Order.{stack, stack_room};

    // An empty list over these cells; they stay as they are.
    pub fn new(cells: &'a mut [T]) -> Self
        ensures waiting { bag (stack result) ≡ none }
        ensures capacity { stack_room result ≡ length cells.old }
        ensures memory { result.cells.now ≡ cells.old }
    {
        Newest { cells, count: 0 }
    }
}

// The clauses `order` promise more than every waiting list does: the newest element is taken.
impl<'a, T: Copy> WaitingList<T> for Newest<'a, T> {
    ghost use Rattle.lists.specs.Order.{stack, stack_room};

    ghost waits = { λ s. bag (stack s) };

    ghost room = { λ s. stack_room s };

    ghost within = { λ s. stacked_within s.count s.cells.now };

    fn len(&self) -> usize {
        self.count
    }

    // As short as the trait can ask for it, here and in `Oldest`.
    fn capacity(&self) -> usize {
        self.cells.len()
    }

    fn put(&mut self, x: T) -> Result<(), Refusal>
        ensures answer { result ≡ put_answer (bag (stack self.old)) (stack_room self.old) }
        ensures waiting { bag (stack self.new) ≡ put_waits x (bag (stack self.old)) (stack_room self.old) }
        ensures capacity { stack_room self.new ≡ stack_room self.old }
        ensures unchanged { is_ok result ≡ false → self.new ≡ self.old }
        ensures order { stack self.new ≡ put_order x (stack self.old) (stack_room self.old) }
    {
        if self.count >= self.capacity() {
            return Err(Refusal::NoRoom);
        }
        self.cells[self.count] = x;
        self.count += 1;
        Ok(())
    }

    fn take(&mut self) -> Option<T>
        ensures waiting { Taken result (bag (stack self.old)) (bag (stack self.new)) }
        ensures count { size (bag (stack self.old)) ≡ size (bag (stack self.new)) + (if is_some result then 1 else 0) }
        ensures capacity { stack_room self.new ≡ stack_room self.old }
        ensures unchanged { is_some result ≡ false → self.new ≡ self.old }
        ensures order { TakenNewest result (stack self.old) (stack self.new) }
    {
        if self.count == 0 {
            return None;
        }
        let last = self.cells[self.count - 1];
        self.count -= 1;
        Some(last)
    }
}
