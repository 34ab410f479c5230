// The limits of a network file.

/// The most bytes of a network file.
pub const LONGEST_FILE: u32 = 1_048_576;

/// The most nodes that a file may name, idle ones included.
pub const MOST_NODES: usize = 64;

/// The most links, idle ones included.
pub const MOST_LINKS: usize = 200;

/// The most pieces of the supply.
pub const MOST_PIECES: usize = 200;
