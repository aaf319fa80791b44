// The book made of parts of any kind.
ghost use Rattle.std.specs.Prelude.{◌≡◌, ◌≤◌, true, ⊤};
ghost use Rattle.meaning.specs.Parts.{IsSized, parts_book, parts_check};

use crate::limits::limits_hold;
use crate::parts::Parts;
use crate::rule::RuleBook;
use meaning::refusal::Refusal;
use std::alloc::AllocError;

// Parts that the check accepts, or those of the blank book, whose edition is 0.
pub struct PartsBook<P: Parts> {
    parts: P,
    ghost sized: { IsSized (P.meaning parts) (P.sizes parts) },
    ghost right: { P.contents parts ≡ true },
    ghost edition_most: { (P.meaning parts).edition ≤ 9999 },
    ghost empty: { ((P.meaning parts).edition ≡ 0 → ((P.meaning parts).items ≡ 1) × ((P.meaning parts).options 0 ≡ 1)) },
}

// Written by hand: a generic struct with a ghost field derives neither.
impl<P: Parts> Copy for PartsBook<P> {}

impl<P: Parts> Clone for PartsBook<P> {
    ghost is_clone = { λ x y. y ≡ x };

    ghost is_infallible = { λ _. ⊤ };

    fn clone(&self) -> Result<PartsBook<P>, AllocError> {
        Ok(*self)
    }
}

impl<P: Parts> PartsBook<P> {
    // Whether these parts make a book, and if not, why.
    pub fn check(parts: P) -> Result<(), Refusal>
        ensures { result ≡ parts_check (P.meaning parts) (P.sizes parts) (P.contents parts) }
    {
        if !limits_hold(parts.edition(), parts.items()) {
            return Err(Refusal::OutOfLimits { line: 0 });
        }
        if !parts.sizes_hold() {
            return Err(Refusal::MemoryShort);
        }
        if parts.contents_hold() {
            Ok(())
        } else {
            Err(Refusal::OutOfLimits { line: 0 })
        }
    }

    // The book of these parts, or the blank book where the check refuses them.
    pub fn new(parts: P) -> PartsBook<P>
        ensures { ⟦<PartsBook<P> as RuleBook>⟧.meaning result ≡ parts_book (P.meaning parts) (P.sizes parts) (P.contents parts) }
    {
        if let Err(_) = PartsBook::check(parts) {
            return PartsBook { parts: P::blank() };
        }
        PartsBook { parts }
    }
}

impl<P: Parts> RuleBook for PartsBook<P> {
    ghost meaning = { λ b. P.meaning b.parts };

    ghost lawful = { λ b. P.lawful b.parts b.sized b.right };

    ghost items_most = { λ b. b.sized.few };

    ghost options_most = { λ b. (P.lawful b.parts b.sized b.right).options_most };

    fn edition(&self) -> u32 {
        self.parts.edition()
    }

    fn items(&self) -> usize {
        self.parts.items()
    }

    fn options(&self, i: usize) -> usize {
        if i < self.parts.items() {
            self.parts.count(i)
        } else {
            0
        }
    }

    fn linked(&self, i: usize, j: usize) -> bool {
        let n = self.parts.items();
        i < n && j < n && self.parts.linked(i, j)
    }

    fn together(&self, i: usize, a: usize, j: usize, b: usize) -> bool {
        a < self.options(i) && b < self.options(j) && self.parts.together(i, a, j, b)
    }
}
