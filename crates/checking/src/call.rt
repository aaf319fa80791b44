// The checking calls: whether words of option bits are a consistent set, and where an option fails.
ghost use Rattle.std.specs.Prelude.{◌≡◌};
ghost use Rattle.checking.specs.Verdicts.{Judges, Points, RuledOut, due, option_due};

use crate::conditions::Candidate;
use books::rule::RuleBook;
use levels::level::Level;
use meaning::refusal::Refusal;

// The level with this number, where there is a word for each item.
fn admitted<B: RuleBook>(book: &B, level: u32, set: &[u32]) -> Result<Level, Refusal>
    ensures { result ≡ due (B.meaning book.now) level set.now }
{
    let level = Level::try_from(level)?;
    if set.len() < book.items() {
        return Err(Refusal::MemoryShort);
    }
    Ok(level)
}

// Whether the first n words, for a book of n items, are a consistent set of the level. The level is a number in each call
// here, since any number is answered, an unknown one by its refusal.
pub fn is_consistent<B: RuleBook>(book: &B, level: u32, set: &[u32]) -> Result<bool, Refusal>
    ensures { Judges (B.meaning book.now) set.now (due (B.meaning book.now) level set.now) result }
{
    let level = admitted(book, level, set)?;
    let count = level.partner_count();
    Ok(Candidate { book, set, count }.items_hold())
}

// The lowest linked item on which option a of item i fails the level among these words, or none. An option that fails
// is in no closed set inside them.
pub fn failing_on<B: RuleBook>(
    book: &B,
    level: u32,
    set: &[u32],
    i: usize,
    a: usize,
) -> Result<Option<usize>, Refusal>
    ensures points { Points (B.meaning book.now) set.now i a (option_due (B.meaning book.now) level set.now i a) result }
    ensures out { RuledOut (B.meaning book.now) set.now i a (option_due (B.meaning book.now) level set.now i a) result }
{
    let level = admitted(book, level, set)?;
    // Sessions ask the same two in `check_option`; to share them, both would need a crate and a definition between them.
    if i >= book.items() {
        return Err(Refusal::NoSuchItem);
    }
    if a >= book.options(i) {
        return Err(Refusal::NoSuchOption);
    }
    let count = level.partner_count();
    Ok(Candidate { book, set, count }.first_failure(i, a))
}
