// Items that may not have equal numbers, three of two options and four of three; the blank book.
use books::grid::GridBook;
use checking::call::is_consistent;
use meaning::parts::GridParts;

// Gives each pair of items these words for its first options, and 0 for the rest.
fn fill(rows: &mut [u32], words: [u32; 3]) {
    for (place, row) in rows.iter_mut().enumerate() {
        let a = place % 32;
        *row = if a < 3 { words[a] } else { 0 };
    }
}

#[test]
fn three_items_of_two_options(rt: HostRuntime) {
    let mut rows = [0u32; 96];
    fill(&mut rows, [0b10, 0b01, 0]);
    let book = GridBook::new(GridParts {
        edition: 1,
        items: 3,
        counts: &[2, 2, 2],
        links: &[0b110, 0b101, 0b011],
        rows: &rows,
    });
    assert_eq!(rt; is_consistent(&book, 0, &[3, 3, 3]), Ok(true));
    assert_eq!(rt; is_consistent(&book, 1, &[3, 3, 3]), Ok(false));
    assert_eq!(rt; is_consistent(&book, 2, &[3, 3, 3]), Ok(false));
}

#[test]
fn four_items_of_three_options(rt: HostRuntime) {
    let mut rows = [0u32; 192];
    fill(&mut rows, [0b110, 0b101, 0b011]);
    let book = GridBook::new(GridParts {
        edition: 1,
        items: 4,
        counts: &[3, 3, 3, 3],
        links: &[0b1110, 0b1101, 0b1011, 0b0111],
        rows: &rows,
    });
    assert_eq!(rt;
        is_consistent(&book, 2, &[7, 7, 7, 7]),
        Ok(true),
        "though no layout exists"
    );
}

#[test]
fn blank_book(rt: HostRuntime) {
    let book = GridBook::new(GridParts {
        edition: 0,
        items: 40,
        counts: &[],
        links: &[],
        rows: &[],
    });
    assert_eq!(rt; is_consistent(&book, 2, &[1]), Ok(true));
    assert_eq!(rt; is_consistent(&book, 2, &[2]), Ok(false));
    assert_eq!(rt; is_consistent(&book, 2, &[0]), Ok(false));
}
