//! How a run of the program ends.
/// How a run of the program ended.
#[derive(Clone, Copy, Debug, PartialEq, Eq)]
pub struct Ending {
    /// The status that the program ends with.
    pub status: u8,
    /// Whether the line was taken whole: an answer by standard output, a refusal by standard error.
    pub is_written: bool,
}
