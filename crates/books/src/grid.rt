// The grid book: a table of row words over memory that someone else holds.
ghost use Rattle.meaning.specs.Grid.{grid_contents, grid_meaning, grid_sizes};
ghost use Rattle.meaning.proofs.GridLaws.{grid_lawful};

use crate::grid_check::{CountedGrid, SizedGrid};
use crate::limits::counts_hold;
use crate::parts::Parts;
use crate::parts_book::PartsBook;
use bits::bit::has_bit;
use meaning::parts::GridParts;

pub type GridBook<'a> = PartsBook<GridParts<'a>>;

impl<'a> Parts for GridParts<'a> {
    ghost meaning = { grid_meaning };

    ghost sizes = { grid_sizes };

    ghost contents = { grid_contents };

    ghost lawful = { λ p sized right. grid_lawful p (sized.some, sized.few) right };

    fn blank() -> GridParts<'a> {
        GridParts {
            edition: 0,
            items: 1,
            counts: &[1],
            links: &[0],
            rows: &[],
        }
    }

    // The accessors are as short as a trait can ask for them, for each kind.
    fn edition(&self) -> u32 {
        self.edition
    }

    fn items(&self) -> usize {
        self.items
    }

    fn sizes_hold(&self) -> bool {
        let n = self.items;
        self.counts.len() >= n && self.links.len() >= n && self.rows.len() >= 16 * (n * (n - 1))
    }

    fn contents_hold(&self) -> bool {
        let grid = SizedGrid { parts: *self };
        counts_hold(self.items, self.counts)
            && grid.links_hold()
            && (CountedGrid { grid }).rows_hold()
    }

    fn count(&self, i: usize) -> usize {
        usize::from(self.counts[i])
    }

    fn linked(&self, i: usize, j: usize) -> bool {
        has_bit(self.links[i], j)
    }

    fn together(&self, i: usize, a: usize, j: usize, b: usize) -> bool {
        if !has_bit(self.links[i], j) {
            return true;
        }
        let grid = SizedGrid { parts: *self };
        if i < j {
            has_bit(grid.row_word(i, a, j), b)
        } else {
            has_bit(grid.row_word(j, b, i), a)
        }
    }
}
