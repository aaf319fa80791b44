// What an admitted screening keeps and answers.
use runs::call::Outcome;

#[derive(Clone, Copy)]
pub struct Settled {
    pub words: [u32; 32],
    pub outcome: Outcome,
}
