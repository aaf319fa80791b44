// A session over a rule book of any kind.
ghost use Rattle.std.specs.Prelude.{◌≡◌, ℕ, ◌&&◌, ◌==◌};
ghost use Rattle.bits.specs.Bits.{bit};
ghost use Rattle.meaning.specs.Limits.{within};
ghost use Rattle.levels.specs.Sets.{words};
ghost use Rattle.runs.specs.State.{is_option, opened};
ghost use Rattle.sessions.specs.View.{is_shown, view};

use crate::marks::Marks;
use crate::options::Options;
use books::rule::RuleBook;

#[derive(Drop)]
pub struct Session<B> {
    pub(crate) book: B,
    // None in a barred session.
    pub(crate) marks: Option<Marks>,
}

// The edition asked for is one that a book can have, and the book's own.
fn edition_fits<B: RuleBook>(book: &B, asked: u32) -> bool
    ensures { result ≡ (within asked 9999 && asked == (B.meaning book.now).edition) }
{
    asked >= 1 && asked <= 9999 && asked == book.edition()
}

impl<B: RuleBook> Session<B> {
    // A session that keeps all options; barred, with nothing kept, unless the book has the edition asked for.
    pub fn open(book: B, asked: u32) -> Session<B>
        ensures same { result.book ≡ book }
        ensures start { view result ≡ opened (B.meaning book) asked }
    {
        let marks = if edition_fits(&book, asked) {
            Some(Marks::new(&book))
        } else {
            None
        };
        Session { book, marks }
    }

    // The word of the options of item i that are in the set.
    fn shown(&self, set: &[u32; 32], i: usize) -> u32
        ensures { (a : ℕ) → bit result a ≡ (is_option (B.meaning self.now.book) i a && words set.now i a) }
    {
        let options = Options {
            book: &self.book,
            set,
        };
        options.of_item(i)
    }

    // The word of the options of item i that are kept; none of a missing item or a barred session.
    pub fn kept(&self, i: usize) -> u32
        ensures { (a : ℕ) → bit result a ≡ is_shown (B.meaning self.now.book) (view self.now).barred (view self.now).kept i a }
    {
        self.marks
            .as_ref()
            .map_or(0, |marks| self.shown(&marks.kept, i))
    }

    // The word of the options of item i that are struck, likewise.
    pub fn struck(&self, i: usize) -> u32
        ensures { (a : ℕ) → bit result a ≡ is_shown (B.meaning self.now.book) (view self.now).barred (view self.now).struck i a }
    {
        self.marks
            .as_ref()
            .map_or(0, |marks| self.shown(&marks.struck, i))
    }
}
