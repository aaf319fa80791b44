// The table of support words: for each option and linked item, the options of that item that stand with it.
ghost use Rattle.std.specs.Prelude.{◌≡◌, ℕ, ◌*◌, ◌<◌};
ghost use Rattle.bits.specs.Bits.{bit};
ghost use Rattle.levels.specs.Levels.{Linked};
ghost use Rattle.levels.specs.Counted.{place};
ghost use Rattle.propagation.specs.Supports.{Supports, SupportsBelow};

use crate::words::put_bit;
use bits::bit::has_bit;
use books::rule::RuleBook;

// Whether a of i and w of k stand together. The book is asked where i < k, and the table knows the answer where k < i.
fn stand<B: RuleBook>(book: &B, rows: &[u32; 32768], i: usize, a: usize, k: usize, w: usize) -> bool
    requires option { (i < (B.meaning book.now).items) × (a < 32) }
    requires linked { Linked (B.meaning book.now) i k }
    requires there { w < (B.meaning book.now).options k }
    requires known { SupportsBelow (B.meaning book.now) (place i a k) rows.now }
    ensures { result ≡ (B.meaning book.now).together i a k w }
{
    if k < i {
        has_bit(rows[1024 * k + 32 * w + i], a)
    } else {
        book.together(i, a, k, w)
    }
}

// The options of k that stand with a of i. A `fold` would say the loop's invariant once more, of the list of what went before.
fn support_word<B: RuleBook>(book: &B, rows: &[u32; 32768], i: usize, a: usize, k: usize) -> u32
    requires option { (i < (B.meaning book.now).items) × (a < 32) }
    requires linked { Linked (B.meaning book.now) i k }
    requires known { SupportsBelow (B.meaning book.now) (place i a k) rows.now }
    ensures { (w : ℕ) → bit result w ≡ (B.meaning book.now).together i a k w }
{
    let mut word = 0u32;
    for w in 0..book.options(k) {
        word = put_bit(word, w, stand(book, rows, i, a, k, w));
    }
    word
}

// Fills the table for all items of the book. It reads the table while it fills it, so the words are not walked by `iter_mut`.
pub fn fill_supports<B: RuleBook>(book: &B, rows: &mut [u32; 32768])
    ensures { Supports (B.meaning book.now) rows.new }
{
    for n in 0..1024 * book.items() {
        if book.linked(n / 1024, n % 32) {
            rows[n] = support_word(book, rows, n / 1024, n / 32 % 32, n % 32);
        }
    }
}
