// The options of one item that fail.
ghost use Rattle.std.specs.Prelude.{◌≡◌, ℕ, ◌<◌, not, ◌&&◌, T, ◌==◌};
ghost use Rattle.bits.specs.Bits.{bit};
ghost use Rattle.levels.specs.Sets.{words};
ghost use Rattle.propagation.specs.Lists.{Pending};
ghost use Rattle.propagation.specs.State.{Narrowed, Sound};

use crate::domains::Domains;
use crate::screening::Screening;
use crate::words::{take_out, without_bit};
use books::rule::RuleBook;
use levels::words::contains;
use lists::choice::Choice;
use lists::waiting::WaitingList;

impl<B: RuleBook> Screening<'_, B> {
    // Crosses out each kept option of the marked item i that fails among those seen, and takes the mark away.
    pub fn revise<O: WaitingList<Choice>>(
        &self,
        domains: &mut Domains,
        counts: &[u8],
        options: &mut O,
        i: usize,
    )
        requires sound { Sound self.now.c (B.meaning self.now.book.now) domains.old counts.now }
        requires pending { Pending (B.meaning self.now.book.now) (words domains.old.kept) (words domains.old.seen) (O.waits options.old) (O.room options.old) }
        requires marked { (i < (B.meaning self.now.book.now).items) × T (bit domains.old.marked i) }
        ensures sound { Sound self.now.c (B.meaning self.now.book.now) domains.new counts.now }
        ensures pending { Pending (B.meaning self.now.book.now) (words domains.new.kept) (words domains.new.seen) (O.waits options.new) (O.room options.new) }
        ensures narrowed { Narrowed self.now.c (B.meaning self.now.book.now) domains.old domains.new }
        ensures seen { domains.new.seen ≡ domains.old.seen }
        ensures marked { (x : ℕ) → bit domains.new.marked x ≡ (bit domains.old.marked x && not (i == x)) }
        ensures capacity { O.room options.new ≡ O.room options.old }
    {
        for a in 0..self.book.options(i) {
            if contains(&domains.kept, i, a) && !self.meets(&domains.seen, counts, i, a) {
                take_out(&mut domains.kept, i, a);
                // Both are below 32, as the book's laws say and no type does; there is room, so nothing is refused.
                let _ = options.put(Choice {
                    item: i as u8,
                    option: a as u8,
                });
            }
        }
        domains.marked = without_bit(domains.marked, i);
    }
}
