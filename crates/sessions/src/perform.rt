// A list of calls, performed one after the other on a session newly opened.
ghost use Rattle.std.specs.Prelude.{◌≡◌, IfOk};
ghost use Rattle.runs.specs.Runs.{Did};
ghost use Rattle.sessions.specs.Performed.{Performs};
ghost use Rattle.sessions.specs.Said.{room};
ghost use Rattle.sessions.specs.View.{view};

use crate::session::Session;
use books::rule::RuleBook;
use lists::choice::Choice;
use lists::waiting::WaitingList;
use runs::call::{Answer, Call};
use std::alloc::{AllocError, Global};

// The session after the calls, and what it said to each.
#[derive(Drop)]
pub struct Performed<B> {
    pub session: Session<B>,
    pub answers: Vec<Answer>,
}

impl<B: RuleBook> Session<B> {
    // Makes the call, and answers what the session says to it.
    pub fn make<O: WaitingList<Choice>, I: WaitingList<u8>>(
        &mut self,
        call: Call,
        counts: &mut [u8],
        options: &mut O,
        items: &mut I,
    ) -> Answer
        ensures did { Did (B.meaning self.old.book) call (room counts.old (O.waits options.old) (O.room options.old) (I.waits items.old) (I.room items.old)) (view self.old) result (room counts.new (O.waits options.new) (O.room options.new) (I.waits items.new) (I.room items.new)) (view self.new) }
        ensures same { self.new.book ≡ self.old.book }
    {
        // Calls are values, since the law speaks of lists of them.
        match call {
            Call::Strike { item, option } => self.strike(item, option)?,
            Call::Choose { item, option } => self.choose(item, option)?,
            Call::Restore { item, option } => self.restore(item, option)?,
            Call::Screen { level } => {
                return Ok(Some(self.screen(level, counts, options, items)?));
            }
        }
        Ok(None)
    }
}

// Opens a session, makes the calls one after the other, and answers what each was answered. Every screening among them
// is handed the same buffer and lists.
pub fn perform<B: RuleBook + Drop, O: WaitingList<Choice>, I: WaitingList<u8>>(
    alloc: Global,
    book: B,
    asked: u32,
    calls: &[Call],
    counts: &mut [u8],
    options: &mut O,
    items: &mut I,
) -> Result<Performed<B>, AllocError>
    ensures { IfOk result (λ p. (p.session.book ≡ book) × Performs (B.meaning book) asked calls.now p.answers.items (room counts.old (O.waits options.old) (O.room options.old) (I.waits items.old) (I.room items.old)) (view p.session) (room counts.new (O.waits options.new) (O.room options.new) (I.waits items.new) (I.room items.new))) }
{
    let mut session = Session::open(book, asked);
    let mut answers = Vec::with_capacity(alloc, calls.len())?;
    for call in calls {
        let answer = session.make(*call, counts, options, items);
        answers.push(answer)?;
    }
    Ok(Performed { session, answers })
}
