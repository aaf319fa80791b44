// The screening itself. Inner: other crates of the library call it, with empty lists that are large enough.
ghost use Rattle.std.specs.Prelude.{◌≡◌, ◌*◌, ◌≤◌, length};
ghost use Rattle.bags.specs.Bags.{add, none};
ghost use Rattle.levels.specs.Closed.{LargestClosed};
ghost use Rattle.levels.specs.Counts.{count_on};
ghost use Rattle.levels.specs.Sets.{words};
ghost use Rattle.levels.specs.Size.{size};
ghost use Rattle.levels.specs.Counted.{Counted, CountsFixed};
ghost use Rattle.propagation.specs.State.{Invariant, Narrowed, Past, There, work};

use crate::counts::clear_rest;
use crate::domains::Domains;
use crate::marks::mark_all;
use crate::screening::Screening;
use crate::supports::fill_supports;
use books::rule::RuleBook;
use lists::choice::Choice;
use lists::waiting::WaitingList;

impl<B: RuleBook> Screening<'_, B> {
    // Revises item i, which was taken from the list, and spreads what that crosses out.
    fn step<O: WaitingList<Choice>, I: WaitingList<u8>>(
        &self,
        domains: &mut Domains,
        counts: &mut [u8],
        options: &mut O,
        items: &mut I,
        i: usize,
    )
        requires holds { Invariant self.now.c (B.meaning self.now.book.now) domains.old counts.old (O.waits options.old) (O.room options.old) (add i (I.waits items.old)) (I.room items.old) }
        ensures holds { Invariant self.now.c (B.meaning self.now.book.now) domains.new counts.new (O.waits options.new) (O.room options.new) (I.waits items.new) (I.room items.new) }
        ensures empty { O.waits options.new ≡ none }
        ensures narrowed { Narrowed self.now.c (B.meaning self.now.book.now) domains.old domains.new }
        ensures less { work (B.meaning self.now.book.now) domains.new (I.waits items.new) ≤ work (B.meaning self.now.book.now) domains.old (I.waits items.old) }
        ensures options { O.room options.new ≡ O.room options.old }
        ensures items { I.room items.new ≡ I.room items.old }
        ensures past { Past (B.meaning self.now.book.now) counts.old counts.new }
    {
        self.revise(domains, counts, options, i);
        self.spread_all(domains, counts, options, items);
    }

    // Revises items until none waits.
    fn settle<O: WaitingList<Choice>, I: WaitingList<u8>>(
        &self,
        domains: &mut Domains,
        counts: &mut [u8],
        options: &mut O,
        items: &mut I,
    )
        requires holds { Invariant self.now.c (B.meaning self.now.book.now) domains.old counts.old (O.waits options.old) (O.room options.old) (I.waits items.old) (I.room items.old) }
        requires empty { O.waits options.old ≡ none }
        ensures holds { Invariant self.now.c (B.meaning self.now.book.now) domains.new counts.new none (O.room options.new) none (I.room items.new) }
        ensures empty { (O.waits options.new ≡ none) × (I.waits items.new ≡ none) }
        ensures narrowed { Narrowed self.now.c (B.meaning self.now.book.now) domains.old domains.new }
        ensures options { O.room options.new ≡ O.room options.old }
        ensures items { I.room items.new ≡ I.room items.old }
        ensures past { Past (B.meaning self.now.book.now) counts.old counts.new }
    {
        while let Some(x) = items.take() {
            self.step(domains, counts, options, items, usize::from(x));
        }
    }
}

// Leaves in the domains the largest closed set inside them, for the partner count c, and its support counts in the bytes.
pub fn propagate<B: RuleBook, O: WaitingList<Choice>, I: WaitingList<u8>>(
    book: &B,
    c: u8,
    domains: &mut [u32; 32],
    counts: &mut [u8],
    options: &mut O,
    items: &mut I,
)
    requires long { 1024 * (B.meaning book.now).items ≤ length counts.old }
    requires there { There (B.meaning book.now) (words domains.old) }
    requires empty { (O.waits options.old ≡ none) × (I.waits items.old ≡ none) }
    requires options { size (B.meaning book.now) (words domains.old) ≤ O.room options.old }
    requires items { (B.meaning book.now).items ≤ I.room items.old }
    ensures largest { LargestClosed (count_on c) (B.meaning book.now) (words domains.old) (words domains.new) }
    ensures there { There (B.meaning book.now) (words domains.new) }
    ensures counted { Counted (B.meaning book.now) (words domains.new) counts.new }
    ensures past { Past (B.meaning book.now) counts.old counts.new }
    ensures length { length counts.new ≡ length counts.old }
    ensures empty { (O.waits options.new ≡ none) × (I.waits items.new ≡ none) }
    ensures options { O.room options.new ≡ O.room options.old }
    ensures items { I.room items.new ≡ I.room items.old }
{
    let mut state = Domains {
        kept: *domains,
        seen: *domains,
        marked: 0,
    };
    // The words of items that are not linked stay full, so that they fail no test for a witness.
    let mut rows = [u32::MAX; 32768];
    fill_supports(book, &mut rows);
    let screening = Screening {
        book,
        rows: &rows,
        c,
    };
    screening.fill_counts(&state.kept, counts);
    mark_all(book.items(), &mut state.marked, items);
    screening.settle(&mut state, counts, options, items);
    clear_rest(book, &state.kept, counts);
    *domains = state.kept;
}

// The support counts that a screening leaves are fixed by the book and the set.
pub fn counts_are_fixed()
    ensures { CountsFixed }
{}
