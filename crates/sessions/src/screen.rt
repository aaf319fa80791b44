// Screening: from the options not struck to the largest consistent set among them. The inner functions ask for what the
// call has tested.
ghost use Rattle.std.specs.Prelude.{◌≡◌, ℕ, ◌*◌, ◌<◌, ◌≤◌, true, length, slice_index};
ghost use Rattle.levels.specs.Sets.{words};
ghost use Rattle.levels.specs.Size.{size};
ghost use Rattle.runs.specs.declared.call.Call.TheVariants.{Screen};
ghost use Rattle.runs.specs.Runs.{Did};
ghost use Rattle.runs.specs.Screening.{roomy};
ghost use Rattle.runs.specs.State.{is_option};
ghost use Rattle.sessions.specs.Said.{Early, Settles, answered, room};
ghost use Rattle.sessions.specs.View.{view};

use crate::options::Options;
use crate::session::Session;
use crate::settled::Settled;
use crate::start::unstruck_words;
use books::rule::RuleBook;
use levels::level::Level;
use lists::choice::Choice;
use lists::waiting::WaitingList;
use meaning::refusal::Refusal;
use propagation::propagate::propagate;
use runs::call::Outcome;

// How many options the book has.
fn book_size<B: RuleBook>(book: &B) -> usize
    ensures { result ≡ size (B.meaning book.now) (is_option (B.meaning book.now)) }
{
    let all = unstruck_words(book, &[0; 32]);
    Options { book, set: &all }.size()
}

// Whether the buffer and the lists are large enough for the book, and nothing waits.
fn has_room<B: RuleBook, O: WaitingList<Choice>, I: WaitingList<u8>>(
    book: &B,
    counts: &[u8],
    options: &O,
    items: &I,
) -> bool
    ensures { result ≡ roomy (B.meaning book.now) (room counts.now (O.waits options.now) (O.room options.now) (I.waits items.now) (I.room items.now)) }
{
    let n = book.items();
    counts.len() >= 1024 * n
        && items.capacity() >= n
        && options.capacity() >= book_size(book)
        && items.len() == 0
        && options.len() == 0
}

// Clears the bytes of n items; that n is small is asked of a number.
fn clear(counts: &mut [u8], n: usize)
    requires few { n ≤ 32 }
    requires long { 1024 * n ≤ length counts.old }
    ensures zero { (k : ℕ) → k < 1024 * n → slice_index counts.new k ≡ 0 }
    ensures past { (k : ℕ) → 1024 * n ≤ k → slice_index counts.new k ≡ slice_index counts.old k }
{
    counts[..1024 * n].fill(0);
}

// Screens the options that are not struck.
fn settle<B: RuleBook, O: WaitingList<Choice>, I: WaitingList<u8>>(
    book: &B,
    level: Level,
    struck: &[u32; 32],
    counts: &mut [u8],
    options: &mut O,
    items: &mut I,
) -> Result<Settled, Refusal>
    requires { roomy (B.meaning book.now) (room counts.old (O.waits options.old) (O.room options.old) (I.waits items.old) (I.room items.old)) ≡ true }
    ensures { Settles level (B.meaning book.now) (room counts.old (O.waits options.old) (O.room options.old) (I.waits items.old) (I.room items.old)) (words struck.now) result (room counts.new (O.waits options.new) (O.room options.new) (I.waits items.new) (I.room items.new)) }
{
    let start = unstruck_words(book, struck);
    let mut kept_words = start;
    propagate(
        book,
        level.partner_count(),
        &mut kept_words,
        counts,
        options,
        items,
    );
    let kept = Options {
        book,
        set: &kept_words,
    };
    if let Some(item) = kept.lowest_empty() {
        clear(counts, book.items());
        return Err(Refusal::NothingConsistent { item });
    }
    let number = kept.size();
    let crossed = Options { book, set: &start }.size() - number;
    Ok(Settled {
        words: kept_words,
        outcome: Outcome {
            kept: number,
            crossed,
        },
    })
}

impl<B: RuleBook> Session<B> {
    // Keeps the largest consistent set of the level among the options not struck, and answers how many it kept and how
    // many it crossed out. A refusal leaves the session as it was. Any number may be handed as the level. Buffer and lists
    // are what callers have, so they stay three parameters; a struct of them could not be seen as one value, since a model's value
    // needs a code and bags have none.
    pub fn screen<O: WaitingList<Choice>, I: WaitingList<u8>>(
        &mut self,
        level: u32,
        counts: &mut [u8],
        options: &mut O,
        items: &mut I,
    ) -> Result<Outcome, Refusal>
        ensures did { Did (B.meaning self.old.book) (Screen level) (room counts.old (O.waits options.old) (O.room options.old) (I.waits items.old) (I.room items.old)) (view self.old) (answered result) (room counts.new (O.waits options.new) (O.room options.new) (I.waits items.new) (I.room items.new)) (view self.new) }
        ensures book { self.new.book ≡ self.old.book }
        ensures early { Early result ((options.new ≡ options.old) × (items.new ≡ items.old)) }
    {
        let marks = self.marks.as_mut().ok_or(Refusal::Barred)?;
        let level = Level::try_from(level)?;
        if !has_room(&self.book, counts, options, items) {
            return Err(Refusal::NoRoom);
        }
        let settled = settle(&self.book, level, &marks.struck, counts, options, items)?;
        let kept_words = settled.words;
        marks.kept = kept_words;
        Ok(settled.outcome)
    }
}
