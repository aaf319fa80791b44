// The parts of a grid book, as someone hands them over; any values, checked or not. The slices stand side by side and the
// number of items beside them, since that is the layout in which callers hold them, with no heap.
#[derive(Clone, Copy)]
pub struct GridParts<'a> {
    pub edition: u32,
    pub items: usize,
    pub counts: &'a [u8],
    pub links: &'a [u32],
    pub rows: &'a [u32],
}

// The parts of a clearance book, likewise; starts and gaps in seconds.
#[derive(Clone, Copy)]
pub struct ClearanceParts<'a> {
    pub edition: u32,
    pub items: usize,
    pub counts: &'a [u8],
    pub starts: &'a [u16],
    pub gaps: &'a [u16],
}
