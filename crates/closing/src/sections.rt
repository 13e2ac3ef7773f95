// Sections of scratch while a pass ends.

// Where the smaller neighbours of a fragment begin; one word more than a section.
pub(crate) const START: usize = 4;

// One more than the least of the greater neighbours.
pub(crate) const LEAST: usize = 6;

// The smallest member of the piece.
pub(crate) const LABEL: usize = 7;

// One more than the next member of the piece.
pub(crate) const MEMBER: usize = 8;

// One more than the first member of a piece that was seen.
pub(crate) const FIRST: usize = 9;

// The forest as it was, in two sections.
pub(crate) const SAVED: usize = 12;

// The cursors of a walk: among the greater neighbours, and among the smaller.
pub(crate) const GREATER: usize = 14;

pub(crate) const SMALLER: usize = 15;
