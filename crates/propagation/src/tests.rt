// Whether an option meets the count c in a set. Every test reads the table, so the book is asked only for links. A
// method asks where its numbers lie, which a struct would have to be made for at each call, with a proof, and opened in each
// clause; and that the counts of the option are those of the set, which `Sound` says of all of them between two steps.
ghost use Rattle.std.specs.Prelude.{◌≡◌, ℕ, ◌*◌, ◌<◌, ◌≤◌, ◌&&◌, length};
ghost use Rattle.bits.specs.Below.{every, some};
ghost use Rattle.bits.specs.Bits.{bit};
ghost use Rattle.levels.specs.Counts.{partners};
ghost use Rattle.levels.specs.Levels.{Linked};
ghost use Rattle.levels.specs.Sets.{words};
ghost use Rattle.levels.specs.Tests.{meets_test, on_linked_test, path_test, witnessed_test};
ghost use Rattle.levels.specs.Counted.{byte};

use crate::screening::Screening;
use bits::bit::has_bit;
use books::rule::RuleBook;
use checking::conditions::is_third;

// Whether three words share a bit.
fn common(x: u32, y: u32, z: u32) -> bool
    ensures { result ≡ some 32 (λ b. bit z b && (bit x b && bit y b)) }
{
    x & y & z != 0
}

impl<B: RuleBook> Screening<'_, B> {
    // Whether a of i and b of j have a witness in the set on k, where k is a third item.
    fn is_witnessed_on(
        &self,
        set: &[u32; 32],
        i: usize,
        a: usize,
        j: usize,
        b: usize,
        k: usize,
    ) -> bool
        requires first { (i < (B.meaning self.now.book.now).items) × (a < 32) }
        requires second { (j < (B.meaning self.now.book.now).items) × (b < 32) }
        requires third { k < (B.meaning self.now.book.now).items }
        ensures { result ≡ witnessed_test (B.meaning self.now.book.now) (words set.now) i a j b k }
    {
        let of_a = self.rows[1024 * i + 32 * a + k];
        let of_b = self.rows[1024 * j + 32 * b + k];
        common(of_a, of_b, set[k]) || !is_third(self.book, i, j, k)
    }

    // Whether a of i and b of j have a witness in the set on every third item.
    fn is_witnessed(&self, set: &[u32; 32], i: usize, a: usize, j: usize, b: usize) -> bool
        requires first { (i < (B.meaning self.now.book.now).items) × (a < 32) }
        requires second { (j < (B.meaning self.now.book.now).items) × (b < 32) }
        ensures { result ≡ every (B.meaning self.now.book.now).items (witnessed_test (B.meaning self.now.book.now) (words set.now) i a j b) }
    {
        (0..self.book.items()).all(|k| self.is_witnessed_on(set, i, a, j, b, k))
    }

    // Whether b is a path partner of a of i on the linked item j.
    fn is_path_partner(&self, set: &[u32; 32], i: usize, a: usize, j: usize, b: usize) -> bool
        requires option { (i < (B.meaning self.now.book.now).items) × (a < 32) }
        requires linked { Linked (B.meaning self.now.book.now) i j }
        requires there { b < (B.meaning self.now.book.now).options j }
        ensures { result ≡ path_test (B.meaning self.now.book.now) (words set.now) i a j b }
    {
        let partners = self.rows[1024 * i + 32 * a + j] & set[j];
        has_bit(partners, b) && self.is_witnessed(set, i, a, j, b)
    }

    // Whether a of i has a path partner on the linked item j.
    fn has_path(&self, set: &[u32; 32], i: usize, a: usize, j: usize) -> bool
        requires option { (i < (B.meaning self.now.book.now).items) × (a < 32) }
        requires linked { Linked (B.meaning self.now.book.now) i j }
        ensures { result ≡ some ((B.meaning self.now.book.now).options j) (path_test (B.meaning self.now.book.now) (words set.now) i a j) }
    {
        (0..self.book.options(j)).any(|b| self.is_path_partner(set, i, a, j, b))
    }

    // Whether a of i meets the count c on j, where j is linked with i.
    fn meets_on(&self, set: &[u32; 32], counts: &[u8], i: usize, a: usize, j: usize) -> bool
        requires long { 1024 * (B.meaning self.now.book.now).items ≤ length counts.now }
        requires option { (i < (B.meaning self.now.book.now).items) × (a < 32) }
        requires there { j < (B.meaning self.now.book.now).items }
        requires support { Linked (B.meaning self.now.book.now) i j → byte counts.now i a j ≡ partners (B.meaning self.now.book.now) (words set.now) i a j }
        ensures { result ≡ on_linked_test self.now.c (B.meaning self.now.book.now) (words set.now) i a j }
    {
        !self.book.linked(i, j)
            || counts[1024 * i + 32 * a + j] > self.c
            || self.has_path(set, i, a, j)
    }

    // Whether a of i meets the count c in the set, where its support counts are those in the set.
    pub fn meets(&self, set: &[u32; 32], counts: &[u8], i: usize, a: usize) -> bool
        requires long { 1024 * (B.meaning self.now.book.now).items ≤ length counts.now }
        requires option { (i < (B.meaning self.now.book.now).items) × (a < 32) }
        requires support { (j : ℕ) → Linked (B.meaning self.now.book.now) i j → byte counts.now i a j ≡ partners (B.meaning self.now.book.now) (words set.now) i a j }
        ensures { result ≡ meets_test self.now.c (B.meaning self.now.book.now) (words set.now) i a }
    {
        (0..self.book.items()).all(|j| self.meets_on(set, counts, i, a, j))
    }
}
