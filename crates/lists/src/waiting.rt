ghost use Rattle.std.specs.Prelude.{◌≡◌, ℕ, ◌+◌, ◌≤◌, false, is_some, is_ok, if◌then◌else◌};
ghost use Rattle.bags.specs.Bags.{Bag, size};
ghost use Rattle.lists.specs.Calls.{put_answer, put_waits, Taken};

use meaning::refusal::Refusal;

pub trait WaitingList<T> {
    // The elements that wait, with repeats and no order.
    ghost waits: { Self → Bag T };

    // How many may wait.
    ghost room: { Self → ℕ };

    // Never more wait than may.
    ghost within: { (s : Self) → size (waits s) ≤ room s };

    fn len(&self) -> usize
        ensures { result ≡ size (waits self.now) };

    fn capacity(&self) -> usize
        ensures { result ≡ room self.now };

    // Adds x. A full list refuses it and stays as it is.
    fn put(&mut self, x: T) -> Result<(), Refusal>
        ensures answer { result ≡ put_answer (waits self.old) (room self.old) }
        ensures waiting { waits self.new ≡ put_waits x (waits self.old) (room self.old) }
        ensures capacity { room self.new ≡ room self.old }
        ensures unchanged { is_ok result ≡ false → self.new ≡ self.old };

    // Removes an element that waits and answers it; each kind of list has its own choice.
    // A loop that takes until nothing waits ends by the clause on the count.
    fn take(&mut self) -> Option<T>
        ensures waiting { Taken result (waits self.old) (waits self.new) }
        ensures count { size (waits self.old) ≡ size (waits self.new) + (if is_some result then 1 else 0) }
        ensures capacity { room self.new ≡ room self.old }
        ensures unchanged { is_some result ≡ false → self.new ≡ self.old };
}
