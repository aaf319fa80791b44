// What the items of a book have of a set of options.
ghost use Rattle.std.specs.Prelude.{◌≡◌, ℕ, ◌≤◌, not, ◌&&◌};
ghost use Rattle.bits.specs.Below.{count, some};
ghost use Rattle.bits.specs.Bits.{bit};
ghost use Rattle.levels.specs.Sets.{words};
ghost use Rattle.levels.specs.Size.{size};
ghost use Rattle.runs.specs.State.{is_option};
ghost use Rattle.sessions.specs.Empty.{Empties};

use crate::start::all_options;
use books::rule::RuleBook;

#[derive(Drop)]
pub struct Options<'a, B> {
    pub book: &'a B,
    pub set: &'a [u32; 32],
}

impl<B: RuleBook> Options<'_, B> {
    // The options of item i that the set has; none where there is no such item.
    pub fn of_item(&self, i: usize) -> u32
        ensures { (a : ℕ) → bit result a ≡ (is_option (B.meaning self.now.book.now) i a && words self.now.set.now i a) }
    {
        if i >= self.book.items() {
            return 0;
        }
        all_options(self.book, i) & self.set[i]
    }

    // How many options of item i the set has.
    pub fn count(&self, i: usize) -> usize
        ensures value { result ≡ count ((B.meaning self.now.book.now).options i) (words self.now.set.now i) }
        ensures most { result ≤ 32 }
    {
        // No conversion without a cast goes from u32 to usize.
        self.of_item(i).count_ones() as usize
    }

    // How many options the set has.
    pub fn size(&self) -> usize
        ensures { result ≡ size (B.meaning self.now.book.now) (words self.now.set.now) }
    {
        // The bound that a sum asks for is the one that the loop finds on its way.
        let mut total = 0;
        for i in 0..self.book.items() {
            total += self.count(i);
        }
        total
    }

    // Whether the set has no option of item i.
    fn is_empty(&self, i: usize) -> bool
        ensures { result ≡ not (some ((B.meaning self.now.book.now).options i) (words self.now.set.now i)) }
    {
        self.of_item(i) == 0
    }

    // The lowest item of which the set has no option.
    pub fn lowest_empty(&self) -> Option<usize>
        ensures { Empties (B.meaning self.now.book.now) (words self.now.set.now) result }
    {
        (0..self.book.items()).find(|i| self.is_empty(*i))
    }
}
