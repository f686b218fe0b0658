use book::types::Fault;

// The place of a fault, by the numbers that a sentence about it speaks of.
#[derive(Clone, Copy)]
pub struct Site {
    // how many bytes the book has
    pub size: usize,
    // where the record begins, and how many bytes remain from there on
    pub place: usize,
    pub left: usize,
    // the length and the kind that the record gives, with 0 for each byte that is not there, as the format's words have
    pub said: u16,
    pub kind: u16,
    // how many bytes a record of that kind has
    pub due: usize,
}

// A fault with its site, shown as one sentence.
#[derive(Clone, Copy)]
pub struct FaultAt {
    pub site: Site,
    pub fault: Fault,
}
