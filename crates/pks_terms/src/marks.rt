//! Marks: numbers by which what is equal is found among much else. What a mark is, no clause says: what is found by it
//! has to be compared.

/// The mark with one more number mixed in, whose place among the numbers matters.
pub fn mix(mark: u64, number: u64) -> u64 {
    (mark ^ number)
        .wrapping_mul(0x9e37_79b9_7f4a_7c15)
        .rotate_left(29)
}
