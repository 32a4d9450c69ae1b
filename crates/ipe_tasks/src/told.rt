/// A whole text.
#[derive(Debug, Drop)]
pub enum Told {
    /// It tells what was asked for.
    Done(Vec<u8>),
    /// It says why that is refused.
    Refused(Vec<u8>),
}
