// Examples of each kind of book; nothing is built of this crate.
#![tactic(auto)]

#[cfg(test)]
mod clearance;
#[cfg(test)]
mod grid;
#[cfg(test)]
mod joint;

#[cfg(test)]
use books::parts::Parts;
#[cfg(test)]
use books::parts_book::PartsBook;
#[cfg(test)]
use books::rule::RuleBook;
#[cfg(test)]
use meaning::refusal::Refusal;
#[cfg(test)]
use std::array;

// What a check answers, with the refusal by its number, which is what the tests of formats speak of.
#[cfg(test)]
fn numbered(answer: Result<(), Refusal>) -> Result<(), u32> {
    answer.map_err(|refusal| refusal.number())
}

// What the check of a book's parts answers, likewise.
#[cfg(test)]
fn checked<P: Parts>(parts: P) -> Result<(), u32> {
    numbered(PartsBook::check(parts))
}

// Whether this is the blank book: one item of one option.
#[cfg(test)]
fn is_blank<B: RuleBook>(book: &B) -> bool {
    book.edition() == 0
        && book.items() == 1
        && book.options(0) == 1
        && book.options(1) == 0
        && !book.linked(0, 0)
        && book.together(0, 0, 0, 0)
        && !book.together(0, 1, 0, 0)
        && !book.together(0, 0, 1, 0)
}

// Row words of which only those of the pair 0, 1 are not 0: of two options each, only the unlike stand together.
#[cfg(test)]
fn unlike<const N: usize>() -> [u32; N] {
    array::from_fn(|k| match k {
        0 => 0b10,
        1 => 0b01,
        _ => 0,
    })
}
