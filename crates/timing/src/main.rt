// How long a screening of full size takes. Says what is kept; with the argument `times` also the times, and how much longer the
// lists take that go the other way.
#![tactic(auto)]

mod junction;

use books::grid::GridBook;
use junction::Junction;
use lists::choice::Choice;
use lists::newest::Newest;
use lists::oldest::Oldest;
use lists::waiting::WaitingList;
use sessions::session::Session;
use std::time::{Duration, Instant};
use std::{env, io};

const NO_CHOICE: Choice = Choice { item: 0, option: 0 };

const ROUNDS: u32 = 50;

// Screens a new session over the book some times, and answers the shortest time and how many options were kept.
fn best_time<O: WaitingList<Choice>, I: WaitingList<u8>>(
    rt: &HostRuntime,
    book: GridBook<'_>,
    level: u32,
    options: &mut O,
    items: &mut I,
) -> io::Result<(Duration, Option<usize>)> {
    let mut counts = [0u8; 32768];
    let mut best = Duration::MAX;
    let mut kept = None;
    for _ in 0..ROUNDS {
        let mut session = Session::open(book, 1);
        let start = Instant::now(rt)?;
        let answer = session.screen(level, &mut counts, options, items);
        best = best.min(start.elapsed(rt)?);
        kept = answer.ok().map(|outcome| outcome.kept);
    }
    Ok((best, kept))
}

// Times one level with lists of both kinds.
fn show_level(rt: &HostRuntime, book: GridBook<'_>, level: u32, times: bool) -> io::Result<()> {
    let mut choices = [NO_CHOICE; 1024];
    let mut numbers = [0u8; 32];
    let (stacked, kept) = best_time(
        rt,
        book,
        level,
        &mut Newest::new(&mut choices),
        &mut Newest::new(&mut numbers),
    )?;
    let (queued, _) = best_time(
        rt,
        book,
        level,
        &mut Oldest::new(&mut choices),
        &mut Oldest::new(&mut numbers),
    )?;
    match kept {
        Some(kept) => println!(rt; "level {level}: keeps {kept} of 1024 options")?,
        None => println!(rt; "level {level}: nothing consistent")?,
    }
    if times {
        println!(rt; "  newest first {stacked:?}, oldest first {queued:?}")?;
    }
    Ok(())
}

fn main(rt: HostRuntime) -> io::Result<()> {
    let times = env::args(&rt)?.any(|argument| argument.as_str() == "times");
    let junction = Junction::random();
    let book = GridBook::new(junction.parts());
    println!(rt; "32 items of 32 options, all linked, 65 % of pairs forbidden at random:")?;
    for level in 0..3u32 {
        show_level(&rt, book, level, times)?;
    }
    Ok(())
}
