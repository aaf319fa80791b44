// The oldest element first.
ghost use Rattle.std.specs.Prelude.{◌≡◌, ◌+◌, ◌-◌, ◌<◌, ◌≤◌, false, length, is_some, is_ok, if◌then◌else◌};
ghost use Rattle.bags.specs.Bags.{bag, none, size};
ghost use Rattle.bags.specs.Views.{wrapped};
ghost use Rattle.bags.proofs.Views.{ringed_within};
ghost use Rattle.lists.specs.Calls.{put_answer, put_waits, put_order, Taken, TakenOldest};

use crate::waiting::WaitingList;
use meaning::refusal::Refusal;

// A ring: the oldest element is at `head`, the newer ones come after it and round the end. Head and count stand beside the
// cells, which are the caller's, with no heap.
#[derive(Drop)]
pub struct Oldest<'a, T> {
    cells: &'a mut [T],
    head: usize,
    count: usize,
    ghost fits: { count ≤ length cells.now },
    ghost starts: { head ≤ length cells.now - 1 },
}

// The place that is `by` after `head`, round the end. Inner: the list keeps its head within the room.
fn advance(head: usize, by: usize, room: usize) -> usize
    requires { (head < room) × (by ≤ room) }
    ensures { result ≡ wrapped room (head + by) }
{
    let left = room - head;
    if by < left { head + by } else { by - left }
}

impl<'a, T: Copy> Oldest<'a, T> {
    ghost use Rattle.lists.specs.Order.{queue, queue_room};

    // An empty list over these cells; they stay as they are.
    pub fn new(cells: &'a mut [T]) -> Self
        ensures waiting { bag (queue result) ≡ none }
        ensures capacity { queue_room result ≡ length cells.old }
        ensures memory { result.cells.now ≡ cells.old }
    {
        Oldest {
            cells,
            head: 0,
            count: 0,
        }
    }
}

// The clauses `order` promise more than every waiting list does: the oldest element is taken.
impl<'a, T: Copy> WaitingList<T> for Oldest<'a, T> {
    ghost use Rattle.lists.specs.Order.{queue, queue_room};

    ghost waits = { λ s. bag (queue s) };

    ghost room = { λ s. queue_room s };

    ghost within = { λ s. ringed_within s.head s.count s.cells.now };

    fn len(&self) -> usize {
        self.count
    }

    fn capacity(&self) -> usize {
        self.cells.len()
    }

    fn put(&mut self, x: T) -> Result<(), Refusal>
        ensures answer { result ≡ put_answer (bag (queue self.old)) (queue_room self.old) }
        ensures waiting { bag (queue self.new) ≡ put_waits x (bag (queue self.old)) (queue_room self.old) }
        ensures capacity { queue_room self.new ≡ queue_room self.old }
        ensures unchanged { is_ok result ≡ false → self.new ≡ self.old }
        ensures order { queue self.new ≡ put_order x (queue self.old) (queue_room self.old) }
    {
        let room = self.capacity();
        if self.count >= room {
            return Err(Refusal::NoRoom);
        }
        let at = advance(self.head, self.count, room);
        self.cells[at] = x;
        self.count += 1;
        Ok(())
    }

    fn take(&mut self) -> Option<T>
        ensures waiting { Taken result (bag (queue self.old)) (bag (queue self.new)) }
        ensures count { size (bag (queue self.old)) ≡ size (bag (queue self.new)) + (if is_some result then 1 else 0) }
        ensures capacity { queue_room self.new ≡ queue_room self.old }
        ensures unchanged { is_some result ≡ false → self.new ≡ self.old }
        ensures order { TakenOldest result (queue self.old) (queue self.new) }
    {
        if self.count == 0 {
            return None;
        }
        let first = self.cells[self.head];
        self.head = advance(self.head, 1, self.capacity());
        self.count -= 1;
        Some(first)
    }
}
