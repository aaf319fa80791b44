// What the lines of a sheet have given so far, in the grid book's layout and with no heap, and the pair line that is due.
#[derive(Drop)]
pub struct Draft {
    pub opening: Opening,
    pub counts: [u8; 32],
    pub links: [u32; 32],
    pub rows: [u32; 15872],
    pub due: Due,
}

// What the reader of a sheet answers beside the memory that it fills.
#[derive(Clone, Copy, PartialEq, Eq, Debug)]
pub struct Opening {
    pub asked: u32,
    pub edition: u32,
    pub items: usize,
}

// A pair line that is due.
#[derive(Clone, Copy, PartialEq, Eq, Debug)]
pub struct Due {
    // The pair of items i < j as 32 * i + j, since the text goes over the pairs by this number.
    pub pair: usize,
    // The option of i.
    pub option: usize,
}
