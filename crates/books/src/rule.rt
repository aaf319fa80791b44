// What every rule book answers. A book is known only by its meaning, and no book can exist that breaks a law.
ghost use Rattle.std.specs.Prelude.{◌≡◌, ℕ, ◌≤◌};
ghost use Rattle.meaning.specs.Meaning.{Lawful, Meaning};

// An item and its option stay two numbers throughout, as in the definitions: a pair of them would put projections into every
// clause and hold no fact of its own.
pub trait RuleBook {
    // The five things that the book means.
    ghost meaning: { Self → Meaning };

    // The laws, which each kind of book has to prove.
    ghost lawful: { (b : Self) → Lawful (meaning b) };

    // Two limits once more, each by itself, so that a search finds them.
    ghost items_most: { (b : Self) → (meaning b).items ≤ 32 };

    ghost options_most: { (b : Self) (i : ℕ) → (meaning b).options i ≤ 32 };

    fn edition(&self) -> u32
        ensures { result ≡ (meaning self.now).edition };

    fn items(&self) -> usize
        ensures { result ≡ (meaning self.now).items };

    // How many options item i has; 0 where there is no such item.
    fn options(&self, i: usize) -> usize
        ensures { result ≡ (meaning self.now).options i };

    fn linked(&self, i: usize, j: usize) -> bool
        ensures { result ≡ (meaning self.now).linked i j };

    // Whether option a of item i stands with option b of item j.
    fn together(&self, i: usize, a: usize, j: usize, b: usize) -> bool
        ensures { result ≡ (meaning self.now).together i a j b };
}
