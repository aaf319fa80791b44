// Grid books: what the check refuses and in which order, the smallest and the largest, and the blank book.
use crate::{checked, is_blank, unlike};
use books::grid::GridBook;
use books::rule::RuleBook;
use meaning::parts::GridParts;

fn parts<'a>(counts: &'a [u8], links: &'a [u32], rows: &'a [u32]) -> GridParts<'a> {
    GridParts {
        edition: 7,
        items: 2,
        counts,
        links,
        rows,
    }
}

#[test]
fn answers(rt: HostRuntime) {
    let rows = &unlike::<32>();
    let parts = parts(&[2, 2], &[0b10, 0b01], rows);
    assert_eq!(rt; checked(parts), Ok(()));
    let book = GridBook::new(parts);
    assert!(rt; book.edition() == 7 && book.items() == 2);
    assert!(rt; book.options(1) == 2 && book.options(2) == 0);
    assert!(rt; book.linked(0, 1) && book.linked(1, 0) && !book.linked(0, 0) && !book.linked(0, 2));
    assert!(rt; book.together(0, 0, 1, 1) && book.together(1, 1, 0, 0));
    assert!(rt; !book.together(0, 0, 1, 0) && !book.together(1, 0, 0, 0));
    assert!(rt; book.together(0, 0, 0, 1) && !book.together(0, 2, 0, 0));
}

#[test]
fn limits_come_first(rt: HostRuntime) {
    let short = parts(&[], &[], &[]);
    assert_eq!(rt; checked(GridParts { items: 0, ..short }), Err(10));
    assert_eq!(rt; checked(GridParts { items: 33, ..short }), Err(10));
    assert_eq!(rt;
        checked(GridParts {
            edition: 0,
            ..short
        }),
        Err(10)
    );
    assert_eq!(rt;
        checked(GridParts {
            edition: 10000,
            ..short
        }),
        Err(10)
    );
    assert_eq!(rt; checked(short), Err(12));
}

#[test]
fn sizes_come_before_contents(rt: HostRuntime) {
    let rows = &unlike::<32>();
    assert_eq!(rt; checked(parts(&[0, 2], &[0b10, 0b01], rows)), Err(10));
    assert_eq!(rt; checked(parts(&[0, 2], &[0b10, 0b01], &[0; 31])), Err(12));
    assert_eq!(rt; checked(parts(&[0, 2], &[0b10], rows)), Err(12));
    assert_eq!(rt; checked(parts(&[0], &[0b10, 0b01], rows)), Err(12));
}

#[test]
fn faulty_contents(rt: HostRuntime) {
    let rows = &unlike::<32>();
    assert_eq!(rt; checked(parts(&[2, 33], &[0b10, 0b01], rows)), Err(10));
    assert_eq!(rt;
        checked(parts(&[2, 2], &[0b110, 0b01], rows)),
        Err(10),
        "link with a missing item"
    );
    assert_eq!(rt;
        checked(parts(&[2, 2], &[0b11, 0b01], rows)),
        Err(10),
        "link with itself"
    );
    assert_eq!(rt;
        checked(parts(&[2, 2], &[0b10, 0b00], rows)),
        Err(10),
        "link one way"
    );
    assert_eq!(rt;
        checked(parts(&[2, 2], &[0, 0], rows)),
        Err(10),
        "rows without a link"
    );
    assert_eq!(rt;
        checked(parts(&[2, 1], &[0b10, 0b01], rows)),
        Err(10),
        "bit of a missing option"
    );
    assert_eq!(rt;
        checked(parts(&[1, 2], &[0b10, 0b01], rows)),
        Err(10),
        "row of a missing option"
    );
}

#[test]
fn one_item_and_thirty_two(rt: HostRuntime) {
    let one = GridParts {
        items: 1,
        edition: 9999,
        ..parts(&[32], &[0], &[])
    };
    assert_eq!(rt; checked(one), Ok(()));
    assert_eq!(rt; GridBook::new(one).options(0), 32);
    let most = GridParts {
        items: 32,
        ..parts(&[1; 32], &[0; 32], &[0; 15872])
    };
    assert_eq!(rt; checked(most), Ok(()));
    assert!(rt; GridBook::new(most).together(0, 0, 31, 0));
}

#[test]
fn refused_parts_make_the_blank_book(rt: HostRuntime) {
    assert!(rt; is_blank(&GridBook::new(parts(&[], &[], &[]))));
}
