//! Positions, ranges and scope numbers.
/// A place in the source text: its byte offset plus 1. 0 is no place: nodes that no text stands for have it.
#[derive(Clone, Copy, PartialEq, Eq, PartialOrd, Ord, Hash, Debug)]
pub struct SourcePos(pub u32);

/// A part of the source text, from its first byte to the place past its last one.
#[derive(Clone, Copy, PartialEq, Eq, PartialOrd, Ord, Hash, Debug)]
pub struct SourceRange {
    pub start: SourcePos,
    pub end: SourcePos,
}

/// The range of a node that no text stands for: 0 to 0 (swc's `DUMMY_SP`).
pub const DUMMY_SP: SourceRange = SourceRange {
    start: SourcePos(0),
    end: SourcePos(0),
};

ghost use Rattle.std.specs.Prelude.{◌≤◌, ◌↔◌, IsTrue};

impl SourceRange {
    /// Whether `other` lies within this range: its start is not before this one's, and its end not after this one's.
    pub fn contains(&self, other: &SourceRange) -> bool
        ensures { IsTrue result ↔ ((self.now.start.0 ≤ other.now.start.0) × (other.now.end.0 ≤ self.now.end.0)) }
    {
        self.start.0 <= other.start.0 && other.end.0 <= self.end.0
    }
}

/// The number of the scope that an identifier is resolved in (swc's `SyntaxContext`).
#[derive(Clone, Copy, PartialEq, Eq, PartialOrd, Ord, Hash, Debug)]
pub struct SyntaxContext(pub u32);
