// The tags of terms, under source document 002's names.

// The first byte of a standalone term, and of a packet.
pub const VERSION: u8 = 131;

pub const SMALL_INTEGER_EXT: u8 = 97;

pub const INTEGER_EXT: u8 = 98;

pub const SMALL_BIG_EXT: u8 = 110;

pub const LARGE_BIG_EXT: u8 = 111;

pub const NEW_FLOAT_EXT: u8 = 70;

pub const ATOM_EXT: u8 = 100;

pub const SMALL_ATOM_EXT: u8 = 115;

pub const ATOM_UTF8_EXT: u8 = 118;

pub const SMALL_ATOM_UTF8_EXT: u8 = 119;

pub const ATOM_CACHE_REF: u8 = 82;

pub const SMALL_TUPLE_EXT: u8 = 104;

pub const LARGE_TUPLE_EXT: u8 = 105;

pub const NIL_EXT: u8 = 106;

pub const STRING_EXT: u8 = 107;

pub const LIST_EXT: u8 = 108;

pub const BINARY_EXT: u8 = 109;

pub const BIT_BINARY_EXT: u8 = 77;

pub const MAP_EXT: u8 = 116;

pub const NEW_PID_EXT: u8 = 88;

pub const PID_EXT: u8 = 103;

pub const NEW_PORT_EXT: u8 = 89;

pub const PORT_EXT: u8 = 102;

pub const V4_PORT_EXT: u8 = 120;

pub const NEWER_REFERENCE_EXT: u8 = 90;

pub const NEW_REFERENCE_EXT: u8 = 114;

pub const REFERENCE_EXT: u8 = 101;

pub const EXPORT_EXT: u8 = 113;
