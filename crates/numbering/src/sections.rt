// Scratch, 0 again at the end. The fragments by levels, parents before their children.
pub(crate) const LEVELS: usize = 7;

// How many fragments each level has; then the spot of the next of each level.
pub(crate) const START: usize = 8;

// How many stand below each.
pub(crate) const SIZE: usize = 9;

// The first section behind them.
pub(crate) const BEHIND: usize = 10;
