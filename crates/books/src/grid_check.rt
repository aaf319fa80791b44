// The contents of a grid book's parts, one condition a method. A method still asks where its numbers lie: a struct of
// them with that fact would have to be made, with a proof, at each call, and opened in each clause.
ghost use Rattle.std.specs.Prelude.{◌≡◌, ◌<◌, true, slice_index};
ghost use Rattle.bits.specs.Below.{every};
ghost use Rattle.meaning.specs.Grid.{grid_meaning, grid_sizes, link_bit, link_right, links_right, place, row_right, rows_right, same};
ghost use Rattle.meaning.specs.Limits.{counts_right};
ghost use Rattle.meaning.specs.Parts.{IsSized};

use crate::pair::pair_number;
use bits::bit::has_bit;
use meaning::parts::GridParts;

// Parts of 1 to 32 items, with memory enough for them. One type for both kinds would name its fact by the trait that is
// implemented through it, and could not derive `Copy`.
#[derive(Clone, Copy)]
pub struct SizedGrid<'a> {
    pub parts: GridParts<'a>,
    ghost sized: { IsSized (grid_meaning parts) (grid_sizes parts) },
}

impl SizedGrid<'_> {
    // The row word of option a of i against a higher item j.
    pub fn row_word(&self, i: usize, a: usize, j: usize) -> u32
        requires lower { i < j }
        requires within { j < self.now.parts.items }
        requires option { a < 32 }
        ensures { result ≡ slice_index self.now.parts.rows.now (place i a j) }
    {
        self.parts.rows[32 * pair_number(i, j) + a]
    }

    // What item i says of each other item, that one says of i.
    fn mutual(&self, i: usize) -> bool
        requires { i < self.now.parts.items }
        ensures { let p = self.now.parts in result ≡ every p.items (λ j. same (link_bit p.links.now i j) (link_bit p.links.now j i)) }
    {
        let links = self.parts.links;
        (0..self.parts.items).all(|j| has_bit(links[i], j) == has_bit(links[j], i))
    }

    // No bit for a missing item, not the item's own, and mutual.
    fn link_holds(&self, i: usize) -> bool
        requires { i < self.now.parts.items }
        ensures { let p = self.now.parts in result ≡ link_right p.items p.links.now i }
    {
        let word = self.parts.links[i];
        u64::from(word) < 1u64 << self.parts.items && !has_bit(word, i) && self.mutual(i)
    }

    pub fn links_hold(&self) -> bool
        ensures { let p = self.now.parts in result ≡ links_right p.items p.links.now }
    {
        (0..self.parts.items).all(|i| self.link_holds(i))
    }
}

// Sized parts whose counts are right.
#[derive(Clone, Copy)]
pub struct CountedGrid<'a> {
    pub grid: SizedGrid<'a>,
    ghost counted: { counts_right grid.parts.items grid.parts.counts.now ≡ true },
}

impl CountedGrid<'_> {
    // One row word of a pair i < j: no bit for a missing option; 0 where nothing is to be said.
    fn row_holds(&self, j: usize, i: usize, a: usize) -> bool
        requires lower { i < j }
        requires within { j < self.now.grid.parts.items }
        requires option { a < 32 }
        ensures { let p = self.now.grid.parts in result ≡ row_right p.counts.now p.links.now p.rows.now j i a }
    {
        let parts = self.grid.parts;
        let word = self.grid.row_word(i, a, j);
        if has_bit(parts.links[i], j) && a < usize::from(parts.counts[i]) {
            u64::from(word) < 1u64 << parts.counts[j]
        } else {
            word == 0
        }
    }

    // The 32 row words of a pair.
    fn pair_holds(&self, j: usize, i: usize) -> bool
        requires lower { i < j }
        requires within { j < self.now.grid.parts.items }
        ensures { let p = self.now.grid.parts in result ≡ every 32 (row_right p.counts.now p.links.now p.rows.now j i) }
    {
        (0..32).all(|a| self.row_holds(j, i, a))
    }

    // The pairs of an item with the lower ones.
    fn item_holds(&self, j: usize) -> bool
        requires { j < self.now.grid.parts.items }
        ensures { let p = self.now.grid.parts in result ≡ every j (λ i. every 32 (row_right p.counts.now p.links.now p.rows.now j i)) }
    {
        (0..j).all(|i| self.pair_holds(j, i))
    }

    pub fn rows_hold(&self) -> bool
        ensures { let p = self.now.grid.parts in result ≡ rows_right p.items p.counts.now p.links.now p.rows.now }
    {
        (0..self.grid.parts.items).all(|j| self.item_holds(j))
    }
}
