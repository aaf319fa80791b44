// Strike, choose and restore.
ghost use Rattle.std.specs.Prelude.{◌≡◌, Some};
ghost use Rattle.runs.specs.Edits.{restore_due, strike_due};
ghost use Rattle.sessions.specs.Edits.{after_choose, after_restore, after_strike, option_due};
ghost use Rattle.sessions.specs.View.{shown, view};

use crate::marks::Marks;
use crate::session::Session;
use crate::start::{one_option, other_options};
use bits::bit::has_bit;
use books::rule::RuleBook;
use meaning::refusal::Refusal;

// Item i has the option a.
fn check_option<B: RuleBook>(book: &B, i: usize, a: usize) -> Result<(), Refusal>
    ensures { result ≡ option_due (B.meaning book.now) i a }
{
    if i >= book.items() {
        return Err(Refusal::NoSuchItem);
    }
    if a >= book.options(i) {
        return Err(Refusal::NoSuchOption);
    }
    Ok(())
}

// Item i has the option a, and that is not struck.
fn check_unstruck<B: RuleBook>(book: &B, marks: &Marks, i: usize, a: usize) -> Result<(), Refusal>
    ensures { result ≡ strike_due (B.meaning book.now) (shown (Some marks.now)) i a }
{
    check_option(book, i, a)?;
    if has_bit(marks.struck[i], a) {
        return Err(Refusal::AlreadyStruck);
    }
    Ok(())
}

impl<B: RuleBook> Session<B> {
    // Strikes the option a of item i.
    pub fn strike(&mut self, i: usize, a: usize) -> Result<(), Refusal>
        ensures said { result ≡ strike_due (B.meaning self.old.book) (view self.old) i a }
        ensures did { view self.new ≡ after_strike (B.meaning self.old.book) (view self.old) i a }
        ensures same { self.new.book ≡ self.old.book }
    {
        // Here and below `as_mut().ok_or(..)?` would hide from the optimizer where the marks lie: edits ran half as many
        // instructions again.
        let Some(marks) = &mut self.marks else {
            return Err(Refusal::Barred);
        };
        check_unstruck(&self.book, marks, i, a)?;
        marks.strike(i, one_option(a));
        Ok(())
    }

    // Chooses the option a of item i: strikes the item's others.
    pub fn choose(&mut self, i: usize, a: usize) -> Result<(), Refusal>
        ensures said { result ≡ strike_due (B.meaning self.old.book) (view self.old) i a }
        ensures did { view self.new ≡ after_choose (B.meaning self.old.book) (view self.old) i a }
        ensures same { self.new.book ≡ self.old.book }
    {
        let Some(marks) = &mut self.marks else {
            return Err(Refusal::Barred);
        };
        check_unstruck(&self.book, marks, i, a)?;
        marks.strike(i, other_options(&self.book, i, a));
        Ok(())
    }

    // Restores the option a of item i; then all options that are not struck are kept.
    pub fn restore(&mut self, i: usize, a: usize) -> Result<(), Refusal>
        ensures said { result ≡ restore_due (B.meaning self.old.book) (view self.old) i a }
        ensures did { view self.new ≡ after_restore (B.meaning self.old.book) (view self.old) i a }
        ensures same { self.new.book ≡ self.old.book }
    {
        let Some(marks) = &mut self.marks else {
            return Err(Refusal::Barred);
        };
        check_option(&self.book, i, a)?;
        if !has_bit(marks.struck[i], a) {
            return Err(Refusal::NotStruck);
        }
        marks.restore(&self.book, i, one_option(a));
        Ok(())
    }
}
