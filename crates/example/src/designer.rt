// A designer's sessions: a list of calls performed at once, and calls made one by one.
use crate::verdicts::show_options;
use books::rule::RuleBook;
use lists::choice::Choice;
use lists::newest::Newest;
use lists::oldest::Oldest;
use meaning::refusal::Refusal;
use runs::call::{Answer, Call};
use sessions::perform::perform;
use sessions::session::Session;
use std::io;

const NO_CHOICE: Choice = Choice { item: 0, option: 0 };

// Adds to a refusal's own text where nothing is left, which its place says only as a number.
fn show_refusal(rt: &impl Print, refusal: Refusal) -> io::Result<()> {
    match refusal {
        Refusal::NothingConsistent { item } => println!(rt;
            "{refusal}, item {item} has nothing left"
        ),
        _ => println!(rt; "{refusal}"),
    }
}

// An answer is a `Result`, which is not this repository's to give a `Display`.
fn show_answer(rt: &impl Print, answer: Answer) -> io::Result<()> {
    match answer {
        Ok(None) => println!(rt; "done"),
        Ok(Some(outcome)) => println!(rt; "{outcome}"),
        Err(refusal) => show_refusal(rt, refusal),
    }
}

// Prints the options of each item that the session keeps.
fn show_kept<B: RuleBook>(rt: &impl Print, session: &Session<B>, items: usize) -> io::Result<()> {
    for i in 0..items {
        print!(rt; "    item {i} keeps")?;
        show_options(rt, session.kept(i))?;
    }
    Ok(())
}

// Performs the calls on a session newly opened for edition 7, and prints what each was answered.
pub fn show_calls<B: RuleBook + Drop>(rt: &HostRuntime, book: B, calls: &[Call]) -> io::Result<()> {
    let items = book.items();
    let mut counts = [0u8; 3072];
    let mut choices = [NO_CHOICE; 10];
    let mut numbers = [0u8; 3];
    let mut options = Newest::new(&mut choices);
    let mut waiting = Oldest::new(&mut numbers);
    let performed = perform(
        rt.alloc(),
        book,
        7,
        calls,
        &mut counts,
        &mut options,
        &mut waiting,
    )?;
    for (call, answer) in calls.iter().zip(performed.answers.iter()) {
        print!(rt; "  {call}: ")?;
        show_answer(rt, *answer)?;
    }
    show_kept(rt, &performed.session, items)?;
    match performed.session.hint() {
        Ok(Some(item)) => println!(rt; "  the hint: decide item {item} next"),
        Ok(None) => println!(rt; "  the hint: nothing is left to decide"),
        Err(refusal) => show_refusal(rt, refusal),
    }
}
