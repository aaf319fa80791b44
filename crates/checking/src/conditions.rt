// The conditions of the levels, asked of a set of options, each stopping at the first answer that decides.
ghost use Rattle.std.specs.Prelude.{◌≡◌, nat_lt};
ghost use Rattle.bits.specs.Below.{every, some};
ghost use Rattle.levels.specs.Sets.{words};
ghost use Rattle.levels.specs.Counts.{partners};
ghost use Rattle.levels.specs.Tests.{kept_meets_test, meets_test, on_test, partner_test, path_test, third_test, witness_test, witnessed_test};
ghost use Rattle.checking.specs.Tests.{FirstFailure, is_item};

use books::rule::RuleBook;
use levels::words::contains;

// Words of option bits that may be a consistent set of the book, and the partner count that they are judged by.
#[derive(Drop)]
pub(crate) struct Candidate<'a, B> {
    pub(crate) book: &'a B,
    pub(crate) set: &'a [u32],
    pub(crate) count: u8,
}

// Whether k is a third item, linked with both i and j.
pub fn is_third<B: RuleBook>(book: &B, i: usize, j: usize, k: usize) -> bool
    ensures { result ≡ third_test (B.meaning book.now) i j k }
{
    k != i && k != j && book.linked(i, k) && book.linked(j, k)
}

impl<'a, B: RuleBook> Candidate<'a, B> {
    fn is_partner(&self, i: usize, a: usize, j: usize, b: usize) -> bool
        ensures { result ≡ partner_test (B.meaning self.now.book.now) (words self.now.set.now) i a j b }
    {
        contains(self.set, j, b) && self.book.together(i, a, j, b)
    }

    // Whether option a of i has more partners on j than the partner count.
    fn has_more_partners(&self, i: usize, a: usize, j: usize) -> bool
        ensures { result ≡ nat_lt self.now.count (partners (B.meaning self.now.book.now) (words self.now.set.now) i a j) }
    {
        // Each partner takes one from the count. `filter` and `nth` would read better, at twice the instructions: `nth` calls
        // `next` at two places, and LLVM inlines neither.
        (0..self.book.options(j))
            .try_fold(self.count, |left, b| {
                if self.is_partner(i, a, j, b) {
                    left.checked_sub(1)
                } else {
                    Some(left)
                }
            })
            .is_none()
    }

    fn is_witness(&self, i: usize, a: usize, j: usize, b: usize, k: usize, w: usize) -> bool
        ensures { result ≡ witness_test (B.meaning self.now.book.now) (words self.now.set.now) i a j b k w }
    {
        contains(self.set, k, w) && self.book.together(i, a, k, w) && self.book.together(j, b, k, w)
    }

    fn has_witness(&self, i: usize, a: usize, j: usize, b: usize, k: usize) -> bool
        ensures { result ≡ some ((B.meaning self.now.book.now).options k) (witness_test (B.meaning self.now.book.now) (words self.now.set.now) i a j b k) }
    {
        (0..self.book.options(k)).any(|w| self.is_witness(i, a, j, b, k, w))
    }

    // Whether a and b have a witness on every third item.
    fn is_witnessed(&self, i: usize, a: usize, j: usize, b: usize) -> bool
        ensures { result ≡ every (B.meaning self.now.book.now).items (witnessed_test (B.meaning self.now.book.now) (words self.now.set.now) i a j b) }
    {
        let book = self.book;
        (0..book.items()).all(|k| !is_third(book, i, j, k) || self.has_witness(i, a, j, b, k))
    }

    fn is_path_partner(&self, i: usize, a: usize, j: usize, b: usize) -> bool
        ensures { result ≡ path_test (B.meaning self.now.book.now) (words self.now.set.now) i a j b }
    {
        self.is_partner(i, a, j, b) && self.is_witnessed(i, a, j, b)
    }

    fn has_path_partner(&self, i: usize, a: usize, j: usize) -> bool
        ensures { result ≡ some ((B.meaning self.now.book.now).options j) (path_test (B.meaning self.now.book.now) (words self.now.set.now) i a j) }
    {
        (0..self.book.options(j)).any(|b| self.is_path_partner(i, a, j, b))
    }

    // Whether option a of i meets the partner count on a linked item j.
    fn meets_on(&self, i: usize, a: usize, j: usize) -> bool
        ensures { result ≡ on_test self.now.count (B.meaning self.now.book.now) (words self.now.set.now) i a j }
    {
        self.has_more_partners(i, a, j) || self.has_path_partner(i, a, j)
    }

    // The lowest linked item on which option a of i fails the partner count.
    pub(crate) fn first_failure(&self, i: usize, a: usize) -> Option<usize>
        ensures { FirstFailure self.now.count (B.meaning self.now.book.now) (words self.now.set.now) i a result }
    {
        // a copy, whose fields are read once and not again at each linked item
        let Candidate { book, set, count } = *self;
        let own = Candidate { book, set, count };
        (0..book.items()).find(|j| book.linked(i, *j) && !own.meets_on(i, a, *j))
    }

    fn meets(&self, i: usize, a: usize) -> bool
        ensures { result ≡ meets_test self.now.count (B.meaning self.now.book.now) (words self.now.set.now) i a }
    {
        self.first_failure(i, a).is_none()
    }

    // Whether each option of item i that is in the set meets the partner count.
    fn options_meet(&self, i: usize) -> bool
        ensures { result ≡ every ((B.meaning self.now.book.now).options i) (kept_meets_test self.now.count (B.meaning self.now.book.now) (words self.now.set.now) i) }
    {
        (0..self.book.options(i)).all(|a| !contains(self.set, i, a) || self.meets(i, a))
    }

    // Whether item i has options, no missing ones, and each meets the partner count.
    fn item_holds(&self, i: usize) -> bool
        ensures { result ≡ is_item self.now.count (B.meaning self.now.book.now) self.now.set.now i }
    {
        // a missing word has no options
        let word = self.set.get(i).copied().unwrap_or(0);
        word != 0 && u64::from(word) < 1u64 << self.book.options(i) && self.options_meet(i)
    }

    pub(crate) fn items_hold(&self) -> bool
        ensures { result ≡ every (B.meaning self.now.book.now).items (is_item self.now.count (B.meaning self.now.book.now) self.now.set.now) }
    {
        (0..self.book.items()).all(|i| self.item_holds(i))
    }
}
