// The kinds of an accepted packet: numbers and no enum, since C reads them (include/ikparumo.h).

pub const NO_PACKET: u64 = 0;

pub const PLAIN: u64 = 1;

pub const PENDING: u64 = 2;

pub const COMPLETE: u64 = 3;
