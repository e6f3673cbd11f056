// The marks of a text: numbers and no enum, since C reads them (include/ikparumo.h).

pub const NO_MARK: u64 = 0;

pub const LATIN1: u64 = 1;

pub const UTF8: u64 = 2;
