// Rule books: what every book answers, and the kinds of book.
#![tactic(auto)]

pub mod clearance;
mod clearance_check;
pub mod grid;
mod grid_check;
pub mod joint;
mod limits;
mod pair;
pub mod parts;
pub mod parts_book;
pub mod rule;
