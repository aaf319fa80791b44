// A junction designer's day: is what a script left consistent, do two books agree, and what does screening leave?
#![tactic(auto)]

mod designer;
mod junction;
mod signals;
mod verdicts;

use books::grid::GridBook;
use books::joint::JointBook;
use designer::show_calls;
use junction::Junction;
use runs::call::Call;
use signals::{Signals, show_forbidden, show_pairs};
use std::io;
use verdicts::{check_level, show_set};

// Checks what a script left of the junction's options.
fn check_junction(rt: &impl Print) -> io::Result<()> {
    let junction = Junction::sample();
    let book = GridBook::new(junction.parts());
    println!(rt; "A junction of 3 items, by edition 7 of the design manual:")?;
    println!(rt; "  item 0, the turning pocket: short or long")?;
    println!(rt; "  item 1, the north approach: 4 signal stages")?;
    println!(rt; "  item 2, the south approach: 4 signal stages")?;

    println!(rt; "A spreadsheet script left every option:")?;
    let left = [0b11u32, 0b1111, 0b1111];
    show_set(rt, &left)?;
    for level in 0..3u32 {
        check_level(rt, &book, level, &left)?;
    }

    println!(rt; "Without option 0 of item 0:")?;
    let fewer = [0b10u32, 0b1111, 0b1111];
    show_set(rt, &fewer)?;
    check_level(rt, &book, 2, &fewer)?;

    println!(rt; "A level that is not there:")?;
    check_level(rt, &book, 3, &left)
}

// Joins the manual's rules for two signal movements with their clearance on site.
fn join_signals(rt: &impl Print) -> io::Result<()> {
    let signals = Signals::sample();
    let manual = signals.manual();
    let site = signals.site();
    println!(rt; "Two signal movements by the manual:")?;
    show_pairs(rt, &manual)?;
    println!(rt; "By their clearance on site, starts at 0 or 30 and 10 or 40, 20 seconds apart:")?;
    show_pairs(rt, &site)?;

    let joint = JointBook::new(manual, site);
    println!(rt; "By both books joined:")?;
    show_pairs(rt, &joint)?;
    show_forbidden(rt, &manual, &site, &joint)?;
    let all = [0b11u32, 0b11];
    show_set(rt, &all)?;
    check_level(rt, &joint, 2, &all)
}

// Shows that books of different junctions are refused.
fn join_misfits(rt: &impl Print) -> io::Result<()> {
    let junction = Junction::sample();
    let signals = Signals::sample();
    println!(rt; "The junction's book joined with the signals' book:")?;
    match JointBook::check(&GridBook::new(junction.parts()), &signals.site()) {
        Ok(()) => println!(rt; "  they fit"),
        Err(refusal) => println!(rt; "  {refusal}"),
    }
}

// A designer's session on the junction, and one on the joint book.
fn design(rt: &HostRuntime) -> io::Result<()> {
    let junction = Junction::sample();
    let book = GridBook::new(junction.parts());
    println!(rt; "A designer's session on the junction:")?;
    let calls = [
        Call::Screen { level: 0 },
        Call::Screen { level: 1 },
        Call::Screen { level: 2 },
    ];
    show_calls(rt, book, &calls)?;
    println!(rt; "The short pocket is chosen all the same:")?;
    let calls = [
        Call::Screen { level: 2 },
        Call::Choose { item: 0, option: 0 },
        Call::Screen { level: 2 },
        Call::Restore { item: 0, option: 1 },
        Call::Strike { item: 0, option: 0 },
        Call::Strike { item: 0, option: 0 },
        Call::Screen { level: 2 },
        Call::Screen { level: 3 },
    ];
    show_calls(rt, book, &calls)?;

    let signals = Signals::sample();
    println!(rt; "A session on the joint book of the signals:")?;
    let calls = [
        Call::Screen { level: 2 },
        Call::Strike { item: 0, option: 1 },
        Call::Screen { level: 0 },
        Call::Strike { item: 1, option: 1 },
        Call::Screen { level: 0 },
    ];
    show_calls(rt, JointBook::new(signals.manual(), signals.site()), &calls)
}

fn main(rt: HostRuntime) -> io::Result<()> {
    check_junction(&rt)?;
    join_signals(&rt)?;
    join_misfits(&rt)?;
    design(&rt)
}
