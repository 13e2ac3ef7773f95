// Sections of scratch. The first three are left to the caller; the others are 0 again at the end.
pub const PIECE: usize = 7;

// 1 where the fragment is cut.
pub const CUT: usize = 8;

// 1 where the link to the parent is sole.
pub const SOLE: usize = 9;

// The reach.
pub(crate) const LOW: usize = 10;

// 1 where a child was met.
pub(crate) const CHILD: usize = 11;

// The first section behind them.
pub(crate) const PAST: usize = 12;
