// The support counts: filled from the table at the start, and cleared at the end where nothing is to be counted. A set and the
// counts meet here as parameters: before the first call and after the last the counts are not yet, or no more, those of the set.
ghost use Rattle.std.specs.Prelude.{◌≡◌, ℕ, ◌*◌, ◌<◌, ◌≤◌, ◌&&◌, length, if◌then◌else◌, slice_index};
ghost use Rattle.bits.specs.Below.{count};
ghost use Rattle.bits.specs.Bits.{bit};
ghost use Rattle.levels.specs.Sets.{words};
ghost use Rattle.levels.specs.Counted.{count_at, used};
ghost use Rattle.propagation.specs.State.{Past};

use crate::screening::Screening;
use books::rule::RuleBook;
use levels::words::contains;

// How many bits two words share.
fn shared(x: u32, y: u32) -> u8
    ensures { result ≡ count 32 (λ b. bit y b && bit x b) }
{
    // At most 32, which the type of a count of ones does not say.
    (x & y).count_ones() as u8
}

// Whether byte n is that of an option of the set and a linked item.
fn is_used<B: RuleBook>(book: &B, set: &[u32; 32], n: usize) -> bool
    ensures { result ≡ used (B.meaning book.now) (words set.now) n }
{
    contains(set, n / 1024, n / 32 % 32) && book.linked(n / 1024, n % 32)
}

impl<B: RuleBook> Screening<'_, B> {
    // The support count that byte n is for.
    fn count_of(&self, set: &[u32; 32], n: usize) -> u8
        requires { n < 1024 * (B.meaning self.now.book.now).items }
        ensures { result ≡ count_at (B.meaning self.now.book.now) (words set.now) n }
    {
        if is_used(self.book, set, n) {
            shared(self.rows[n], set[n % 32])
        } else {
            0
        }
    }

    // Counts the partners of each option of the set.
    pub fn fill_counts(&self, set: &[u32; 32], counts: &mut [u8])
        requires { 1024 * (B.meaning self.now.book.now).items ≤ length counts.old }
        ensures first { (n : ℕ) → n < 1024 * (B.meaning self.now.book.now).items → slice_index counts.new n ≡ count_at (B.meaning self.now.book.now) (words set.now) n }
        ensures past { Past (B.meaning self.now.book.now) counts.old counts.new }
    {
        for (n, count) in counts[..1024 * self.book.items()].iter_mut().enumerate() {
            *count = self.count_of(set, n);
        }
    }
}

// Clears each byte that is not of an option of the set and a linked item.
pub fn clear_rest<B: RuleBook>(book: &B, set: &[u32; 32], counts: &mut [u8])
    requires { 1024 * (B.meaning book.now).items ≤ length counts.old }
    ensures first { (n : ℕ) → n < 1024 * (B.meaning book.now).items → slice_index counts.new n ≡ (if used (B.meaning book.now) (words set.now) n then slice_index counts.old n else 0) }
    ensures past { Past (B.meaning book.now) counts.old counts.new }
{
    for (n, count) in counts[..1024 * book.items()].iter_mut().enumerate() {
        if !is_used(book, set, n) {
            *count = 0;
        }
    }
}
