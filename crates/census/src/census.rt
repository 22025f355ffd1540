// The counts of a map, as they are answered.

// The points made, the points listed, the two-way links, and the borders of the points made.
#[derive(Clone, Copy)]
pub struct Counts {
    pub made: u8,
    pub listed: u8,
    pub links: u16,
    pub borders: u16,
}
