// The second byte of a packet.

pub const DIST_HEADER: u8 = 68;

pub const DIST_FRAG_HEADER: u8 = 69;

pub const DIST_FRAG_CONT: u8 = 70;
