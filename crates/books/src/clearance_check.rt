// The contents of a clearance book's parts, one condition a method. A method still asks where its numbers lie: a struct
// of them with that fact would have to be made, with a proof, at each call, and opened in each clause.
ghost use Rattle.std.specs.Prelude.{◌≡◌, ◌<◌, ◌≤◌, true, slice_index};
ghost use Rattle.bits.specs.Below.{every};
ghost use Rattle.meaning.specs.Clearance.{clearance_meaning, clearance_sizes, gap_of, gaps_right, green, green_right, greens_right};
ghost use Rattle.meaning.specs.Limits.{counts_right};
ghost use Rattle.meaning.specs.Parts.{IsSized};

use crate::pair::pair_number;
use meaning::parts::ClearanceParts;

// Parts of 1 to 32 items, with memory enough for them. One type for both kinds would name its fact by the trait that is
// implemented through it, and could not derive `Copy`.
#[derive(Clone, Copy)]
pub struct SizedClearance<'a> {
    pub parts: ClearanceParts<'a>,
    ghost sized: { IsSized (clearance_meaning parts) (clearance_sizes parts) },
}

impl SizedClearance<'_> {
    // When option a of item i starts its green.
    pub fn green_start(&self, i: usize, a: usize) -> u16
        requires within { i < self.now.parts.items }
        requires option { a < 32 }
        ensures { result ≡ green self.now.parts.starts.now i a }
    {
        self.parts.starts[32 * i + a]
    }

    // The gap of a pair i < j.
    fn pair_gap(&self, i: usize, j: usize) -> u16
        requires lower { i < j }
        requires within { j < self.now.parts.items }
        ensures { result ≡ gap_of self.now.parts.gaps.now i j }
    {
        self.parts.gaps[pair_number(i, j)]
    }

    // The gap between two items in either order; 0 between an item and itself.
    pub fn gap_between(&self, i: usize, j: usize) -> u16
        requires first { i < self.now.parts.items }
        requires second { j < self.now.parts.items }
        ensures { result ≡ gap_of self.now.parts.gaps.now i j }
    {
        if i < j {
            self.pair_gap(i, j)
        } else if j < i {
            self.pair_gap(j, i)
        } else {
            0
        }
    }

    pub fn gaps_hold(&self) -> bool
        ensures { let p = self.now.parts in result ≡ gaps_right p.items p.gaps.now }
    {
        let parts = self.parts;
        (0..parts.items * (parts.items - 1) / 2).all(|k| parts.gaps[k] <= 3600)
    }
}

// Sized parts whose counts are right.
#[derive(Clone, Copy)]
pub struct CountedClearance<'a> {
    pub clearance: SizedClearance<'a>,
    ghost counted: { counts_right clearance.parts.items clearance.parts.counts.now ≡ true },
}

impl CountedClearance<'_> {
    // The starts of an item's options.
    fn item_holds(&self, i: usize) -> bool
        requires { i < self.now.clearance.parts.items }
        ensures { let p = self.now.clearance.parts in result ≡ every (slice_index p.counts.now i) (green_right p.starts.now i) }
    {
        let count = usize::from(self.clearance.parts.counts[i]);
        (0..count).all(|a| self.clearance.green_start(i, a) <= 3599)
    }

    pub fn starts_hold(&self) -> bool
        ensures { let p = self.now.clearance.parts in result ≡ greens_right p.items p.counts.now p.starts.now }
    {
        (0..self.clearance.parts.items).all(|i| self.item_holds(i))
    }
}
