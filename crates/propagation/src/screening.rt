// What a screening goes by, from its start to its end.
ghost use Rattle.propagation.specs.Supports.{Supports};

use books::rule::RuleBook;

// The book, its table of support words, and the partner count c.
#[derive(Drop)]
pub struct Screening<'a, B: RuleBook> {
    pub book: &'a B,
    pub rows: &'a [u32; 32768],
    pub c: u8,
    ghost known: { Supports (B.meaning book.now) rows.now },
}
