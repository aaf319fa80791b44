// The clearance book: starts of green and the gaps between them, over memory that someone else holds.
ghost use Rattle.meaning.specs.Clearance.{clearance_contents, clearance_meaning, clearance_sizes};
ghost use Rattle.meaning.proofs.ClearanceLaws.{clearance_lawful};

use crate::clearance_check::{CountedClearance, SizedClearance};
use crate::limits::counts_hold;
use crate::parts::Parts;
use crate::parts_book::PartsBook;
use meaning::parts::ClearanceParts;

pub type ClearanceBook<'a> = PartsBook<ClearanceParts<'a>>;

impl<'a> Parts for ClearanceParts<'a> {
    ghost meaning = { clearance_meaning };

    ghost sizes = { clearance_sizes };

    ghost contents = { clearance_contents };

    ghost lawful = { λ p sized right. clearance_lawful p (sized.some, sized.few) right };

    fn blank() -> ClearanceParts<'a> {
        ClearanceParts {
            edition: 0,
            items: 1,
            counts: &[1],
            starts: &[0; 32],
            gaps: &[],
        }
    }

    // The accessors are as short as a trait can ask for them, for each kind.
    fn edition(&self) -> u32 {
        self.edition
    }

    fn items(&self) -> usize {
        self.items
    }

    fn sizes_hold(&self) -> bool {
        let n = self.items;
        self.counts.len() >= n && self.starts.len() >= 32 * n && self.gaps.len() >= n * (n - 1) / 2
    }

    fn contents_hold(&self) -> bool {
        let clearance = SizedClearance { parts: *self };
        counts_hold(self.items, self.counts)
            && (CountedClearance { clearance }).starts_hold()
            && clearance.gaps_hold()
    }

    fn count(&self, i: usize) -> usize {
        usize::from(self.counts[i])
    }

    fn linked(&self, i: usize, j: usize) -> bool {
        (SizedClearance { parts: *self }).gap_between(i, j) >= 1
    }

    fn together(&self, i: usize, a: usize, j: usize, b: usize) -> bool {
        let clearance = SizedClearance { parts: *self };
        let first = clearance.green_start(i, a);
        let second = clearance.green_start(j, b);
        first.abs_diff(second) >= clearance.gap_between(i, j)
    }
}
