// The hint: the item at which to decide next.
ghost use Rattle.std.specs.Prelude.{Some};
ghost use Rattle.runs.specs.Hint.{Hints};
ghost use Rattle.sessions.specs.Hint.{HintSays};
ghost use Rattle.sessions.specs.View.{shown, view};

use crate::marks::Marks;
use crate::options::Options;
use crate::session::Session;
use books::rule::RuleBook;
use meaning::refusal::Refusal;

// The item with the fewest kept options among those with two or more, the lowest on ties.
fn fewest_kept<B: RuleBook>(book: &B, marks: &Marks) -> Option<usize>
    ensures { Hints (B.meaning book.now) (shown (Some marks.now)) result }
{
    let kept = Options {
        book,
        set: &marks.kept,
    };
    // `min_by_key` says that its calls fold to its result: the loop's invariant once more, of the list of what went before.
    let mut best = None;
    for i in 0..book.items() {
        let number = kept.count(i);
        // With the two tests the other way round the loop ran more than half as many instructions again.
        if best.is_none_or(|(_, fewest)| number < fewest) && number >= 2 {
            best = Some((i, number));
        }
    }
    best.map(|(item, _)| item)
}

impl<B: RuleBook> Session<B> {
    // The item at which a designer should decide next, if any is still open.
    pub fn hint(&self) -> Result<Option<usize>, Refusal>
        ensures { HintSays (B.meaning self.now.book) (view self.now) result }
    {
        let marks = self.marks.as_ref().ok_or(Refusal::Barred)?;
        Ok(fewest_kept(&self.book, marks))
    }
}
