// The joint book: two rule books of any kind, read as one.
ghost use Rattle.std.specs.Prelude.{◌≡◌, nat_eq};
ghost use Rattle.bits.specs.Below.{every};
ghost use Rattle.meaning.specs.Joint.{agree, joined, joint, joint_check};
ghost use Rattle.meaning.proofs.JointLaws.{joined_lawful};

use crate::rule::RuleBook;
use meaning::refusal::Refusal;
use std::alloc::AllocError;

// Whether the two books agree is found out once, when the joint book is made. It stays a flag beside them, since both books
// stay in either case: a book of any kind may not be let go. No ghost field says what it tells: then a clone, of which nothing says
// that it is the same book, would ask its books anew, and a struct of generic books could not hold a joint book of joint books.
pub struct JointBook<P: RuleBook, Q: RuleBook> {
    first: P,
    second: Q,
    fits: bool,
}

impl<P: RuleBook + Copy, Q: RuleBook + Copy> Copy for JointBook<P, Q> {}

// As a derive writes it, by hand so that what a clone keeps is said and can be turned: both books are clones, and the flag stays.
impl<P: RuleBook + Clone, Q: RuleBook + Clone> Clone for JointBook<P, Q> {
    ghost is_clone = { λ x y. P.is_clone x.first y.first × Q.is_clone x.second y.second × (y.fits ≡ x.fits) };

    ghost is_infallible = { λ x. P.is_infallible x.first × Q.is_infallible x.second };

    fn clone(&self) -> Result<JointBook<P, Q>, AllocError> {
        Ok(JointBook {
            first: self.first.clone()?,
            second: self.second.clone()?,
            fits: self.fits,
        })
    }
}

// The first n items have as many options in one book as in the other. Both books are parameters here and below: the joint book,
// which would hold them, is yet to be made.
fn same_counts<P: RuleBook, Q: RuleBook>(first: &P, second: &Q, n: usize) -> bool
    ensures { result ≡ every n (λ i. nat_eq ((P.meaning first.now).options i) ((Q.meaning second.now).options i)) }
{
    (0..n).all(|i| first.options(i) == second.options(i))
}

fn books_agree<P: RuleBook, Q: RuleBook>(first: &P, second: &Q) -> bool
    ensures { result ≡ agree (P.meaning first.now) (Q.meaning second.now) }
{
    let n = first.items();
    first.edition() == second.edition() && n == second.items() && same_counts(first, second, n)
}

impl<P: RuleBook, Q: RuleBook> JointBook<P, Q> {
    // Whether these two books make a joint book.
    pub fn check(first: &P, second: &Q) -> Result<(), Refusal>
        ensures { result ≡ joint_check (P.meaning first.now) (Q.meaning second.now) }
    {
        if books_agree(first, second) {
            Ok(())
        } else {
            Err(Refusal::BooksDoNotFit)
        }
    }

    // The joint book of these two, or the blank book where they do not fit.
    pub fn new(first: P, second: Q) -> JointBook<P, Q>
        ensures first { result.first ≡ first }
        ensures second { result.second ≡ second }
        ensures meaning { ⟦<JointBook<P, Q> as RuleBook>⟧.meaning result ≡ joint (P.meaning first) (Q.meaning second) }
    {
        let fits = books_agree(&first, &second);
        JointBook {
            first,
            second,
            fits,
        }
    }
}

impl<P: RuleBook, Q: RuleBook> RuleBook for JointBook<P, Q> {
    // The second book is heard only of the first's items and where it links them, which is lawful for any two books.
    ghost meaning = { λ b. joined b.fits (P.meaning b.first) (Q.meaning b.second) };

    ghost lawful = { λ b. joined_lawful (P.meaning b.first) (Q.meaning b.second) (P.lawful b.first) (Q.lawful b.second) b.fits };

    ghost items_most = { λ b. (joined_lawful (P.meaning b.first) (Q.meaning b.second) (P.lawful b.first) (Q.lawful b.second) b.fits).items_most };

    ghost options_most = { λ b. (joined_lawful (P.meaning b.first) (Q.meaning b.second) (P.lawful b.first) (Q.lawful b.second) b.fits).options_most };

    fn edition(&self) -> u32 {
        if self.fits { self.first.edition() } else { 0 }
    }

    fn items(&self) -> usize {
        if self.fits { self.first.items() } else { 1 }
    }

    fn options(&self, i: usize) -> usize {
        if self.fits {
            self.first.options(i)
        } else if i == 0 {
            1
        } else {
            0
        }
    }

    fn linked(&self, i: usize, j: usize) -> bool {
        if !self.fits {
            return false;
        }
        let n = self.first.items();
        self.first.linked(i, j) || (i < n && j < n && self.second.linked(i, j))
    }

    fn together(&self, i: usize, a: usize, j: usize, b: usize) -> bool {
        if !self.fits {
            return i == 0 && a == 0 && j == 0 && b == 0;
        }
        self.first.together(i, a, j, b)
            && (!self.second.linked(i, j) || self.second.together(i, a, j, b))
    }
}
