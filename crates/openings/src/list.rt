// A list of openings.

// How many there are, and of each, in order, the numbers of its point and its direction. Behind them stand zeros.
#[derive(Clone, Copy)]
pub struct Openings {
    pub count: u16,
    pub points: [u8; 512],
    pub directions: [u8; 512],
}
