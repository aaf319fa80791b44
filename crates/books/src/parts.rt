// What a kind of parts answers, so that books can be made of it. Only sized parts are asked for what they hold; that stands
// in each such clause, since a struct with the fact would need this very trait.
ghost use Rattle.std.specs.Prelude.{◌≡◌, ◌<◌, ◌≤◌, Bool, true};
ghost use Rattle.meaning.specs.Blank.{blank};
ghost use Rattle.meaning.specs.Meaning.{Lawful, Meaning};
ghost use Rattle.meaning.specs.Parts.{IsSized};

pub trait Parts: Copy {
    // What the parts mean where they are right.
    ghost meaning: { Self → Meaning };

    // Whether there is memory enough for the items, and whether what it holds is right.
    ghost sizes: { Self → Bool };

    ghost contents: { Self → Bool };

    // The laws of books, which each kind has to prove of right parts.
    ghost lawful: { (p : Self) → IsSized (meaning p) (sizes p) → contents p ≡ true → Lawful (meaning p) };

    // The parts of the blank book.
    fn blank() -> Self
        ensures meaning { meaning result ≡ blank }
        ensures sizes { sizes result ≡ true }
        ensures contents { contents result ≡ true };

    fn edition(&self) -> u32
        ensures { result ≡ (meaning self.now).edition };

    fn items(&self) -> usize
        ensures { result ≡ (meaning self.now).items };

    fn sizes_hold(&self) -> bool
        requires some { 1 ≤ (meaning self.now).items }
        requires few { (meaning self.now).items ≤ 32 }
        ensures { result ≡ sizes self.now };

    fn contents_hold(&self) -> bool
        requires { IsSized (meaning self.now) (sizes self.now) }
        ensures { result ≡ contents self.now };

    // How many options item i has, which is there.
    fn count(&self, i: usize) -> usize
        requires sized { IsSized (meaning self.now) (sizes self.now) }
        requires there { i < (meaning self.now).items }
        ensures { result ≡ (meaning self.now).options i };

    fn linked(&self, i: usize, j: usize) -> bool
        requires sized { IsSized (meaning self.now) (sizes self.now) }
        requires first { i < (meaning self.now).items }
        requires second { j < (meaning self.now).items }
        ensures { result ≡ (meaning self.now).linked i j };

    fn together(&self, i: usize, a: usize, j: usize, b: usize) -> bool
        requires sized { IsSized (meaning self.now) (sizes self.now) }
        requires right { contents self.now ≡ true }
        requires first { a < (meaning self.now).options i }
        requires second { b < (meaning self.now).options j }
        ensures { result ≡ (meaning self.now).together i a j b };
}
