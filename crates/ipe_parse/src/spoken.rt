/// A line with tokens, and its number from 1.
#[derive(Debug, Drop)]
pub struct Spoken<'a> {
    pub number: u32,
    pub tokens: Vec<&'a [u8]>,
}
