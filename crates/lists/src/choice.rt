// An option of an item, both numbered from 0.
#[derive(Clone, Copy, PartialEq, Eq, Debug)]
pub struct Choice {
    pub item: u8,
    pub option: u8,
}
