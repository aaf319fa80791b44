// The largest junction: 32 items of 32 options, all linked, and pairs of options forbidden at random from a fixed seed.
use meaning::parts::GridParts;

#[derive(Drop)]
pub struct Junction {
    counts: [u8; 32],
    links: [u32; 32],
    rows: [u32; 15872],
}

// The next number of a xorshift generator.
fn next(x: u32) -> u32 {
    let x = x ^ (x << 13);
    let x = x ^ (x >> 17);
    x ^ (x << 5)
}

// A row word in which each bit is set for 35 in 100 numbers of the generator.
fn random_word(seed: &mut u32) -> u32 {
    let mut word = 0;
    for b in 0..32u32 {
        *seed = next(*seed);
        if *seed % 100 < 35 {
            word |= 1 << b;
        }
    }
    word
}

impl Junction {
    pub fn random() -> Junction {
        let mut seed = 12345;
        let mut rows = [0; 15872];
        for row in rows.iter_mut() {
            *row = random_word(&mut seed);
        }
        let mut links = [u32::MAX; 32];
        for (i, word) in links.iter_mut().enumerate() {
            *word ^= 1 << i;
        }
        Junction {
            counts: [32; 32],
            links,
            rows,
        }
    }

    pub fn parts(&self) -> GridParts<'_> {
        GridParts {
            edition: 1,
            items: 32,
            counts: &self.counts,
            links: &self.links,
            rows: &self.rows,
        }
    }
}
