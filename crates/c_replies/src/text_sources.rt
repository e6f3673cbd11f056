// Where a text stands: numbers and no enum, since C reads them (include/ikparumo.h).

pub const NOWHERE: u64 = 0;

pub const MESSAGE: u64 = 1;

pub const LIST: u64 = 2;
