// Three linked items with 2, 4 and 4 options.
use books::grid::GridBook;
use checking::call::{failing_on, is_consistent};
use meaning::parts::GridParts;
use meaning::refusal::Refusal;

fn rows() -> [u32; 96] {
    let mut rows = [0u32; 96];
    rows[0] = 0b0011;
    rows[1] = 0b1111;
    rows[32] = 0b0011;
    rows[33] = 0b1111;
    rows[64] = 0b1100;
    rows[65] = 0b1100;
    rows[66] = 0b0011;
    rows[67] = 0b0011;
    rows
}

fn sample(rows: &[u32]) -> GridBook<'_> {
    GridBook::new(GridParts {
        edition: 7,
        items: 3,
        counts: &[2, 4, 4],
        links: &[0b110, 0b101, 0b011],
        rows,
    })
}

#[test]
fn all_options_by_level(rt: HostRuntime) {
    let rows = rows();
    let book = sample(&rows);
    let set = [0b11u32, 0b1111, 0b1111];
    assert_eq!(rt; is_consistent(&book, 0, &set), Ok(true));
    assert_eq!(rt; is_consistent(&book, 1, &set), Ok(true));
    assert_eq!(rt; is_consistent(&book, 2, &set), Ok(false));
    assert_eq!(rt; failing_on(&book, 2, &set, 0, 0), Ok(Some(1)));
    assert_eq!(rt; failing_on(&book, 1, &set, 0, 0), Ok(None));
    assert_eq!(rt; is_consistent(&book, 2, &[0b10, 0b1111, 0b1111]), Ok(true));
}

#[test]
fn sets_that_are_none(rt: HostRuntime) {
    let rows = rows();
    let book = sample(&rows);
    assert_eq!(rt;
        is_consistent(&book, 0, &[0b11, 0, 0b1111]),
        Ok(false),
        "an empty item"
    );
    assert_eq!(rt;
        is_consistent(&book, 0, &[0b111, 0b1111, 0b1111]),
        Ok(false),
        "a missing option"
    );
    assert_eq!(rt;
        is_consistent(&book, 2, &[0b10, 0b1111, 0b1111, 7]),
        Ok(true),
        "words past the items"
    );
}

#[test]
fn refusals_in_order(rt: HostRuntime) {
    let rows = rows();
    let book = sample(&rows);
    assert_eq!(rt; is_consistent(&book, 3, &[]), Err(Refusal::NoSuchLevel));
    assert_eq!(rt;
        is_consistent(&book, 4294967295, &[]),
        Err(Refusal::NoSuchLevel)
    );
    assert_eq!(rt; is_consistent(&book, 2, &[1, 1]), Err(Refusal::MemoryShort));
    assert_eq!(rt; failing_on(&book, 3, &[1], 9, 9), Err(Refusal::NoSuchLevel));
    assert_eq!(rt; failing_on(&book, 2, &[1], 9, 9), Err(Refusal::MemoryShort));
    assert_eq!(rt;
        failing_on(&book, 2, &[1, 1, 1], 3, 9),
        Err(Refusal::NoSuchItem)
    );
    assert_eq!(rt;
        failing_on(&book, 2, &[1, 1, 1], 0, 2),
        Err(Refusal::NoSuchOption)
    );
}
