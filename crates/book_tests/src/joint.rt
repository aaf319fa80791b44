// Joint books: of a manual and a site, of joint books again, and of books that do not fit.
use crate::{numbered, unlike};
use books::clearance::ClearanceBook;
use books::grid::GridBook;
use books::joint::JointBook;
use books::rule::RuleBook;
use meaning::parts::{ClearanceParts, GridParts};
use std::alloc::AllocError;

// The manual links items 0 and 1, of which only the unlike options stand together.
fn manual<'a>(rows: &'a [u32]) -> GridBook<'a> {
    let links = &[0b010, 0b001, 0b000];
    GridBook::new(GridParts {
        edition: 7,
        items: 3,
        counts: &[2, 2, 2],
        links,
        rows,
    })
}

// On the site items 0 and 1 are 20 apart, and so are items 1 and 2.
fn site_starts() -> [u16; 96] {
    let mut starts = [0; 96];
    starts[1] = 30;
    starts[32] = 10;
    starts[33] = 40;
    starts
}

fn site<'a>(starts: &'a [u16]) -> ClearanceBook<'a> {
    let gaps = &[20, 0, 20];
    ClearanceBook::new(ClearanceParts {
        edition: 7,
        items: 3,
        counts: &[2, 2, 2],
        starts,
        gaps,
    })
}

// A book that links nothing.
fn free<'a>(edition: u32, items: usize, counts: &'a [u8]) -> GridBook<'a> {
    GridBook::new(GridParts {
        edition,
        items,
        counts,
        links: &[0; 3],
        rows: &[0; 96],
    })
}

#[test]
fn manual_and_site(rt: HostRuntime) {
    let (rows, starts) = (&unlike::<96>(), &site_starts());
    assert_eq!(rt;
        numbered(JointBook::check(&manual(rows), &site(starts))),
        Ok(())
    );
    let book = JointBook::new(manual(rows), site(starts));
    assert!(rt; book.edition() == 7 && book.items() == 3);
    assert!(rt; book.options(2) == 2 && book.options(3) == 0);
    assert!(rt; book.linked(0, 1) && book.linked(2, 1) && !book.linked(0, 2) && !book.linked(3, 0));
    assert!(rt;
        book.together(0, 0, 1, 1) && book.together(1, 0, 0, 1) && !book.together(0, 0, 1, 0)
    );
    assert!(rt;
        !book.together(1, 0, 2, 0) && book.together(2, 0, 1, 1) && book.together(0, 0, 2, 1)
    );
}

// A struct over books of any kind may hold a joint book of joint books.
#[derive(Clone, Copy)]
struct Nested<P: RuleBook, Q: RuleBook> {
    book: JointBook<P, JointBook<Q, P>>,
}

#[test]
fn joint_book_in_a_struct(rt: HostRuntime) -> Result<(), AllocError> {
    let (rows, starts) = (&unlike::<96>(), &site_starts());
    let inner = JointBook::new(site(starts), manual(rows));
    let nested = Nested {
        book: JointBook::new(manual(rows), inner),
    };
    let copy = nested.clone()?;
    assert!(rt; copy.book.edition() == 7 && copy.book.linked(1, 2));
    assert!(rt; copy.book.together(0, 0, 1, 1) && !copy.book.together(0, 0, 1, 0));
    Ok(())
}

#[test]
fn joint_of_joints(rt: HostRuntime) {
    let (rows, starts) = (&unlike::<96>(), &site_starts());
    let inner = JointBook::new(manual(rows), site(starts));
    let book = JointBook::new(inner, JointBook::new(site(starts), inner));
    assert!(rt; book.edition() == 7 && book.items() == 3 && book.options(0) == 2);
    assert!(rt; book.linked(0, 1) && book.linked(1, 2) && !book.linked(0, 2));
    assert!(rt;
        book.together(0, 0, 1, 1) && !book.together(0, 0, 1, 0) && !book.together(1, 0, 2, 0)
    );
}

#[test]
fn books_that_do_not_fit(rt: HostRuntime) {
    let rows = &unlike::<96>();
    assert_eq!(rt;
        numbered(JointBook::check(&manual(rows), &free(7, 3, &[2, 2, 2]))),
        Ok(())
    );
    assert_eq!(rt;
        numbered(JointBook::check(&manual(rows), &free(8, 3, &[2, 2, 2]))),
        Err(13)
    );
    assert_eq!(rt;
        numbered(JointBook::check(&manual(rows), &free(7, 2, &[2, 2, 2]))),
        Err(13)
    );
    assert_eq!(rt;
        numbered(JointBook::check(&manual(rows), &free(7, 3, &[2, 2, 3]))),
        Err(13)
    );
    let book = JointBook::new(manual(rows), free(7, 3, &[2, 2, 3]));
    assert!(rt; book.edition() == 0 && book.items() == 1);
    assert!(rt; book.options(0) == 1 && book.options(1) == 0 && !book.linked(0, 1));
    assert!(rt; book.together(0, 0, 0, 0) && !book.together(0, 0, 1, 1));
}

#[test]
fn blank_books_fit(rt: HostRuntime) {
    assert_eq!(rt;
        numbered(JointBook::check(&manual(&[]), &site(&[]))),
        Ok(())
    );
    let book = JointBook::new(manual(&[]), site(&[]));
    assert!(rt; book.edition() == 0 && book.items() == 1);
    assert!(rt; book.options(0) == 1 && book.options(1) == 0 && !book.linked(0, 0));
    assert!(rt; book.together(0, 0, 0, 0) && !book.together(0, 0, 1, 1));
}
