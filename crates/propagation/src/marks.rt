// The items that wait to be revised: each is marked, and waits once.
ghost use Rattle.std.specs.Prelude.{◌≡◌, ℕ, ◌+◌, ◌<◌, ◌≤◌, T};
ghost use Rattle.bags.specs.Bags.{size};
ghost use Rattle.bits.specs.Bits.{bit};
ghost use Rattle.propagation.specs.Lists.{Marks};

use crate::words::put_bit;
use bits::bit::has_bit;
use books::rule::RuleBook;
use lists::waiting::WaitingList;

// Marks item i and puts it on the list, unless it waits there. That n is small is asked of a number, here and below.
pub fn mark<I: WaitingList<u8>>(n: usize, marked: &mut u32, items: &mut I, i: usize)
    requires few { n ≤ 32 }
    requires there { i < n }
    requires marks { Marks n (bit marked.old) (I.waits items.old) (I.room items.old) }
    ensures marks { Marks n (bit marked.new) (I.waits items.new) (I.room items.new) }
    ensures done { T (bit marked.new i) }
    ensures still { (x : ℕ) → T (bit marked.old x) → T (bit marked.new x) }
    ensures few { size (I.waits items.new) ≤ size (I.waits items.old) + 1 }
    ensures capacity { I.room items.new ≡ I.room items.old }
{
    if !has_bit(*marked, i) {
        *marked = put_bit(*marked, i, true);
        // Below 32, as the clauses say and no type does; there is room, so nothing is refused.
        let _ = items.put(i as u8);
    }
}

// Marks each item that is linked with j.
pub fn mark_linked<B: RuleBook, I: WaitingList<u8>>(
    book: &B,
    marked: &mut u32,
    items: &mut I,
    j: usize,
)
    requires { Marks (B.meaning book.now).items (bit marked.old) (I.waits items.old) (I.room items.old) }
    ensures marks { Marks (B.meaning book.now).items (bit marked.new) (I.waits items.new) (I.room items.new) }
    ensures done { (x : ℕ) → x < (B.meaning book.now).items → T ((B.meaning book.now).linked x j) → T (bit marked.new x) }
    ensures still { (x : ℕ) → T (bit marked.old x) → T (bit marked.new x) }
    ensures few { size (I.waits items.new) ≤ size (I.waits items.old) + 32 }
    ensures capacity { I.room items.new ≡ I.room items.old }
{
    let n = book.items();
    for i in 0..n {
        if book.linked(i, j) {
            mark(n, marked, items, i);
        }
    }
}

// Marks all n items. It shares no test with mark_linked: of what a closure answers a clause can say only that it may.
pub fn mark_all<I: WaitingList<u8>>(n: usize, marked: &mut u32, items: &mut I)
    requires few { n ≤ 32 }
    requires marks { Marks n (bit marked.old) (I.waits items.old) (I.room items.old) }
    ensures marks { Marks n (bit marked.new) (I.waits items.new) (I.room items.new) }
    ensures done { (x : ℕ) → x < n → T (bit marked.new x) }
    ensures capacity { I.room items.new ≡ I.room items.old }
{
    for i in 0..n {
        mark(n, marked, items, i);
    }
}
