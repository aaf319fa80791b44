// What the crossings-out that wait lead to.
ghost use Rattle.std.specs.Prelude.{◌≡◌, ℕ, ◌+◌, ◌≤◌, not, ◌&&◌, T, ◌==◌};
ghost use Rattle.bags.specs.Bags.{none, size};
ghost use Rattle.bits.specs.Bits.{bit};
ghost use Rattle.levels.specs.Sets.{words};
ghost use Rattle.propagation.specs.Lists.{Marks};
ghost use Rattle.propagation.specs.State.{Invariant, Past, Sound, work};

use crate::domains::Domains;
use crate::marks::mark_linked;
use crate::screening::Screening;
use crate::words::take_out;
use books::rule::RuleBook;
use lists::choice::Choice;
use lists::waiting::WaitingList;

impl<B: RuleBook> Screening<'_, B> {
    // Spreads the crossing-out of b of j to the items that are linked with j.
    fn spread<I: WaitingList<u8>>(
        &self,
        domains: &mut Domains,
        counts: &mut [u8],
        items: &mut I,
        j: usize,
        b: usize,
    )
        requires sound { Sound self.now.c (B.meaning self.now.book.now) domains.old counts.old }
        requires marks { Marks (B.meaning self.now.book.now).items (bit domains.old.marked) (I.waits items.old) (I.room items.old) }
        requires out { T (words domains.old.seen j b && not (words domains.old.kept j b)) }
        ensures sound { Sound self.now.c (B.meaning self.now.book.now) domains.new counts.new }
        ensures marks { Marks (B.meaning self.now.book.now).items (bit domains.new.marked) (I.waits items.new) (I.room items.new) }
        ensures kept { domains.new.kept ≡ domains.old.kept }
        ensures seen { (i a : ℕ) → words domains.new.seen i a ≡ (words domains.old.seen i a && not (j == i && b == a)) }
        ensures few { size (I.waits items.new) ≤ size (I.waits items.old) + 32 }
        ensures capacity { I.room items.new ≡ I.room items.old }
        ensures past { Past (B.meaning self.now.book.now) counts.old counts.new }
    {
        take_out(&mut domains.seen, j, b);
        mark_linked(self.book, &mut domains.marked, items, j);
        self.lower_linked(&domains.kept, counts, j, b);
    }

    // Spreads all that waits.
    pub fn spread_all<O: WaitingList<Choice>, I: WaitingList<u8>>(
        &self,
        domains: &mut Domains,
        counts: &mut [u8],
        options: &mut O,
        items: &mut I,
    )
        requires holds { Invariant self.now.c (B.meaning self.now.book.now) domains.old counts.old (O.waits options.old) (O.room options.old) (I.waits items.old) (I.room items.old) }
        ensures holds { Invariant self.now.c (B.meaning self.now.book.now) domains.new counts.new (O.waits options.new) (O.room options.new) (I.waits items.new) (I.room items.new) }
        ensures empty { O.waits options.new ≡ none }
        ensures kept { domains.new.kept ≡ domains.old.kept }
        ensures less { work (B.meaning self.now.book.now) domains.new (I.waits items.new) ≤ work (B.meaning self.now.book.now) domains.old (I.waits items.old) }
        ensures options { O.room options.new ≡ O.room options.old }
        ensures items { I.room items.new ≡ I.room items.old }
        ensures past { Past (B.meaning self.now.book.now) counts.old counts.new }
    {
        while let Some(x) = options.take() {
            let (j, b) = (usize::from(x.item), usize::from(x.option));
            self.spread(domains, counts, items, j, b);
        }
    }
}
