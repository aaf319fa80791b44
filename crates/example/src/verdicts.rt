// Asks the checking calls and prints what they say. The handle that prints is no part of a book, so both are parameters
// throughout.
use bits::bit::has_bit;
use books::rule::RuleBook;
use checking::call::{failing_on, is_consistent};
use levels::level::Level;
use meaning::refusal::Refusal;
use std::io;

// What an option that fails the level lacks on the item named; no name of the level, so not its `Display`.
fn lack(level: Level) -> &'static str {
    match level {
        Level::Arc => "has no partner",
        Level::RestrictedPath => "has no partner, or a lone one that is no path partner,",
        Level::MaxRestrictedPath => "has no path partner",
    }
}

// Ends the line with the options whose bits the word has.
pub fn show_options(rt: &impl Print, word: u32) -> io::Result<()> {
    for a in (0..32usize).filter(|a| has_bit(word, *a)) {
        print!(rt; " {a}")?;
    }
    println!(rt; "")
}

// Prints the options of each item that are in the set.
pub fn show_set(rt: &impl Print, set: &[u32]) -> io::Result<()> {
    for (i, word) in set.iter().enumerate() {
        print!(rt; "  item {i}: options")?;
        show_options(rt, *word)?;
    }
    Ok(())
}

// Prints each option of item i that fails the level, and where. The level stays a number here and below, as the calls take it.
fn show_failures<B: RuleBook>(
    rt: &impl Print,
    book: &B,
    number: u32,
    lack: &str,
    set: &[u32],
    i: usize,
) -> io::Result<()> {
    for a in 0..book.options(i) {
        if let Ok(Some(j)) = failing_on(book, number, set, i, a) {
            println!(rt; "    option {a} of item {i} {lack} on item {j}")?;
            println!(rt; "    so no consistent set among these options has it")?;
        }
    }
    Ok(())
}

// The level of the number, and whether the set is consistent at it.
fn judge<B: RuleBook>(book: &B, number: u32, set: &[u32]) -> Result<(Level, bool), Refusal> {
    let consistent = is_consistent(book, number, set)?;
    Ok((Level::try_from(number)?, consistent))
}

// Prints whether the set is consistent at the level, with the options that fail, or the refusal.
pub fn check_level<B: RuleBook>(
    rt: &impl Print,
    book: &B,
    number: u32,
    set: &[u32],
) -> io::Result<()> {
    match judge(book, number, set) {
        Ok((level, true)) => println!(rt; "  level {number}, {level}: consistent"),
        Ok((level, false)) => {
            println!(rt; "  level {number}, {level}: not consistent")?;
            for i in 0..book.items() {
                show_failures(rt, book, number, lack(level), set, i)?;
            }
            Ok(())
        }
        Err(refusal) => println!(rt; "  level {number}: {refusal}"),
    }
}
