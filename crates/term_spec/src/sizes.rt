// The sizes of document 01: terms and atom lists.

// Bytes of a term, of a payload, or gathered.
pub const MESSAGE_MOST: usize = 65536;

pub const ROWS_MOST: usize = 8192;

pub const DEPTH_MOST: usize = 64;
// The parts of a pair of a map: a key and its value.
pub const PAIR_PARTS: usize = 2;
// Characters of an atom.
pub const CHARACTERS_MOST: usize = 255;
// Bytes of a place, in an atom list and in the cache.
pub const PLACE_BYTES: usize = 32;
// Places of an atom list, and their bytes together.
pub const LIST_PLACES: usize = 255;

pub const LIST_BYTES: usize = LIST_PLACES * PLACE_BYTES;
