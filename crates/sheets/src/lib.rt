// Sheets: the text of a junction, what a sheet is read as, and the laws between the two.
#![tactic(auto)]

pub mod draft;
pub mod law;
