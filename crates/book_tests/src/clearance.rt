// Clearance books: starts and gaps at their limits, the smallest and the largest, and the blank book.
use crate::{checked, is_blank};
use books::clearance::ClearanceBook;
use books::rule::RuleBook;
use meaning::parts::ClearanceParts;

fn parts<'a>(counts: &'a [u8], starts: &'a [u16], gaps: &'a [u16]) -> ClearanceParts<'a> {
    ClearanceParts {
        edition: 7,
        items: 2,
        counts,
        starts,
        gaps,
    }
}

// The starts of two items with two options each.
fn starts(first: [u16; 2], second: [u16; 2]) -> [u16; 64] {
    let mut starts = [0; 64];
    starts[0] = first[0];
    starts[1] = first[1];
    starts[32] = second[0];
    starts[33] = second[1];
    starts
}

#[test]
fn twenty_seconds_apart(rt: HostRuntime) {
    let starts = &starts([0, 30], [10, 40]);
    let parts = parts(&[2, 2], starts, &[20]);
    assert_eq!(rt; checked(parts), Ok(()));
    let book = ClearanceBook::new(parts);
    assert!(rt; book.edition() == 7 && book.items() == 2);
    assert!(rt; book.options(1) == 2 && book.options(2) == 0);
    assert!(rt; book.linked(0, 1) && book.linked(1, 0) && !book.linked(0, 0) && !book.linked(0, 2));
    assert!(rt; !book.together(0, 0, 1, 0) && book.together(0, 0, 1, 1));
    assert!(rt; book.together(0, 1, 1, 0) && !book.together(0, 1, 1, 1));
    assert!(rt;
        book.together(1, 1, 0, 0) && book.together(0, 0, 0, 1) && !book.together(0, 2, 1, 0)
    );
}

#[test]
fn gaps_at_their_limits(rt: HostRuntime) {
    let starts = &starts([0, 3599], [0, 3599]);
    let free = ClearanceBook::new(parts(&[2, 2], starts, &[0]));
    assert!(rt; !free.linked(0, 1) && free.together(0, 0, 1, 0));
    let close = ClearanceBook::new(parts(&[2, 2], starts, &[1]));
    assert!(rt; close.linked(0, 1) && !close.together(0, 0, 1, 0) && close.together(0, 1, 1, 0));
    let never = ClearanceBook::new(parts(&[2, 2], starts, &[3600]));
    assert!(rt; never.linked(0, 1) && !never.together(0, 0, 1, 1));
    assert_eq!(rt; checked(parts(&[2, 2], starts, &[3601])), Err(10));
}

#[test]
fn starts_of_missing_options_do_not_matter(rt: HostRuntime) {
    let starts = &starts([0, 3600], [0, 3599]);
    assert_eq!(rt; checked(parts(&[2, 2], starts, &[1])), Err(10));
    assert_eq!(rt; checked(parts(&[1, 2], starts, &[1])), Ok(()));
}

#[test]
fn limits_then_sizes_then_contents(rt: HostRuntime) {
    let starts = &starts([0, 0], [0, 0]);
    assert_eq!(rt; checked(parts(&[0, 2], starts, &[1])), Err(10));
    assert_eq!(rt; checked(parts(&[33, 2], starts, &[1])), Err(10));
    assert_eq!(rt; checked(parts(&[33], starts, &[1])), Err(12));
    assert_eq!(rt; checked(parts(&[33, 2], &[0; 63], &[1])), Err(12));
    let few_gaps = parts(&[33, 2], starts, &[]);
    assert_eq!(rt; checked(few_gaps), Err(12));
    assert_eq!(rt;
        checked(ClearanceParts {
            edition: 10000,
            ..few_gaps
        }),
        Err(10)
    );
    assert_eq!(rt;
        checked(ClearanceParts {
            items: 33,
            ..few_gaps
        }),
        Err(10)
    );
}

#[test]
fn one_item_and_thirty_two(rt: HostRuntime) {
    assert_eq!(rt;
        checked(ClearanceParts {
            items: 1,
            ..parts(&[32], &[0; 32], &[])
        }),
        Ok(())
    );
    let most = ClearanceParts {
        items: 32,
        ..parts(&[1; 32], &[0; 1024], &[1; 496])
    };
    assert_eq!(rt; checked(most), Ok(()));
    assert!(rt; ClearanceBook::new(most).linked(30, 31));
    assert_eq!(rt;
        checked(ClearanceParts {
            gaps: &[1; 495],
            ..most
        }),
        Err(12)
    );
}

#[test]
fn refused_parts_make_the_blank_book(rt: HostRuntime) {
    assert!(rt; is_blank(&ClearanceBook::new(parts(&[], &[], &[]))));
}
