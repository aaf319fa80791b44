// The sample junction as the parts of a grid book.
use meaning::parts::GridParts;

#[derive(Drop)]
pub struct Junction {
    counts: [u8; 3],
    links: [u32; 3],
    rows: [u32; 96],
}

impl Junction {
    // All three items are linked. A short pocket (option 0 of item 0) leaves the first two stages of each approach;
    // the first two stages of one approach stand with the last two of the other.
    pub fn sample() -> Junction {
        let mut rows = [0u32; 96];
        rows[0] = 0b0011;
        rows[1] = 0b1111;
        rows[32] = 0b0011;
        rows[33] = 0b1111;
        rows[64] = 0b1100;
        rows[65] = 0b1100;
        rows[66] = 0b0011;
        rows[67] = 0b0011;
        Junction {
            counts: [2, 4, 4],
            links: [0b110, 0b101, 0b011],
            rows,
        }
    }

    pub fn parts(&self) -> GridParts<'_> {
        GridParts {
            edition: 7,
            items: 3,
            counts: &self.counts,
            links: &self.links,
            rows: &self.rows,
        }
    }
}
