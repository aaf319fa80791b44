// The support counts that a crossing-out lowers.
ghost use Rattle.std.specs.Prelude.{◌≡◌, ℕ, ◌+◌, ◌-◌, ◌*◌, ◌<◌, ◌≤◌, T, ◌≢◌, length, slice_index};
ghost use Rattle.bits.specs.Below.{one_if};
ghost use Rattle.bits.specs.Bits.{bit};
ghost use Rattle.levels.specs.Sets.{words};
ghost use Rattle.levels.specs.Counted.{byte, place};
ghost use Rattle.propagation.specs.Lowering.{Lowers, PartnersLeft, SameElse};

use crate::screening::Screening;
use bits::bit::has_bit;
use books::rule::RuleBook;

// Lowers the count on j of each option of i that the word has. The counts stand 32 bytes apart, so no part of the slice is
// walked whole. That the bytes are enough is asked here and in `counts.rt`: a struct of book and bytes would be made anew by
// each function that writes them.
fn lower(counts: &mut [u8], word: u32, i: usize, j: usize)
    requires long { 1024 * i + 1024 ≤ length counts.old }
    requires there { (i < 32) × (j < 32) }
    requires one { (a : ℕ) → a < 32 → T (bit word a) → 1 ≤ byte counts.old i a j }
    ensures mine { (a : ℕ) → a < 32 → byte counts.new i a j ≡ byte counts.old i a j - one_if (bit word a) }
    ensures others { (k : ℕ) → ((a : ℕ) → a < 32 → k ≢ place i a j) → slice_index counts.new k ≡ slice_index counts.old k }
{
    for a in 0..32usize {
        if has_bit(word, a) {
            counts[1024 * i + 32 * a + j] -= 1;
        }
    }
}

impl<B: RuleBook> Screening<'_, B> {
    // Lowers the count on j of each kept option that has b of j as a partner.
    pub fn lower_linked(&self, kept: &[u32; 32], counts: &mut [u8], j: usize, b: usize)
        requires long { 1024 * (B.meaning self.now.book.now).items ≤ length counts.old }
        requires there { (j < (B.meaning self.now.book.now).items) × (b < 32) }
        requires one { PartnersLeft (B.meaning self.now.book.now) (words kept.now) j b counts.old }
        ensures mine { Lowers (B.meaning self.now.book.now) (words kept.now) j b counts.old counts.new }
        ensures others { SameElse (B.meaning self.now.book.now) j counts.old counts.new }
    {
        for i in 0..self.book.items() {
            if self.book.linked(i, j) {
                lower(counts, self.rows[1024 * j + 32 * b + i] & kept[i], i, j);
            }
        }
    }
}
