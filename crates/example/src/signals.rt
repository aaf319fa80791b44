// Two signal movements with two starts of green each: what the manual permits, and what their clearance on site does.
use books::clearance::ClearanceBook;
use books::grid::GridBook;
use books::rule::RuleBook;
use meaning::parts::{ClearanceParts, GridParts};
use std::io;

#[derive(Drop)]
pub struct Signals {
    counts: [u8; 2],
    links: [u32; 2],
    rows: [u32; 32],
    starts: [u16; 64],
    gaps: [u16; 1],
}

impl Signals {
    // The manual forbids option 1 with option 1. On site the movements start at 0 or 30 seconds and at 10 or 40, and
    // have to be 20 seconds apart.
    pub fn sample() -> Signals {
        let mut rows = [0u32; 32];
        rows[0] = 0b11;
        rows[1] = 0b01;
        let mut starts = [0u16; 64];
        starts[1] = 30;
        starts[32] = 10;
        starts[33] = 40;
        Signals {
            counts: [2, 2],
            links: [0b10, 0b01],
            rows,
            starts,
            gaps: [20],
        }
    }

    pub fn manual(&self) -> GridBook<'_> {
        GridBook::new(GridParts {
            edition: 7,
            items: 2,
            counts: &self.counts,
            links: &self.links,
            rows: &self.rows,
        })
    }

    pub fn site(&self) -> ClearanceBook<'_> {
        ClearanceBook::new(ClearanceParts {
            edition: 7,
            items: 2,
            counts: &self.counts,
            starts: &self.starts,
            gaps: &self.gaps,
        })
    }
}

// Prints the options of item 1 that stand with option a of item 0.
fn show_partners<B: RuleBook>(rt: &impl Print, book: &B, a: usize) -> io::Result<()> {
    print!(rt; "  option {a} of item 0 stands with")?;
    for b in (0..book.options(1)).filter(|b| book.together(0, a, 1, *b)) {
        print!(rt; " {b}")?;
    }
    println!(rt; " of item 1")
}

// Prints what the book says of items 0 and 1.
pub fn show_pairs<B: RuleBook>(rt: &impl Print, book: &B) -> io::Result<()> {
    for a in 0..book.options(0) {
        show_partners(rt, book, a)?;
    }
    Ok(())
}

// Prints each pair of options of items 0 and 1 that the manual permits and the joint book forbids, with the book that
// forbids it.
pub fn show_forbidden<M: RuleBook, S: RuleBook, J: RuleBook>(
    rt: &impl Print,
    manual: &M,
    site: &S,
    joint: &J,
) -> io::Result<()> {
    for a in 0..joint.options(0) {
        for b in 0..joint.options(1) {
            if manual.together(0, a, 1, b) && !joint.together(0, a, 1, b) {
                println!(rt;
                    "  option {a} of item 0 with option {b} of item 1: the manual permits it, the joint book forbids it"
                )?;
                if !site.together(0, a, 1, b) {
                    println!(rt; "    since the clearance book forbids it")?;
                }
            }
        }
    }
    Ok(())
}
