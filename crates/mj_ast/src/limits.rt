// What the language limits in the text of a routine.

/// The most bytes of a line, without its end.
pub const LINE_LIMIT: usize = 8_192;

/// The most lines of a routine.
pub const ROUTINE_LIMIT: usize = 10_000;

/// The most levels that are open at once.
pub const DEPTH_LIMIT: usize = 64;
