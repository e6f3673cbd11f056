// The sizes of document 01: cache and gather buffer.

// Places of the cache, and their bytes together.
pub const CACHE_PLACES: usize = 2048;

pub const CACHE_BYTES: usize = 65536;
// The length of an empty place of the cache.
pub const CACHE_EMPTY: u16 = 65535;

pub const GATHER_BYTES: usize = 65536;
// Bytes before the header of a plain packet: 131, the tag; of a fragment: 131, the tag, its two ids.
pub const PLAIN_PREAMBLE: usize = 2;

pub const FRAGMENT_PREAMBLE: usize = 18;
