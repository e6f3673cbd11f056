// The kinds of a number: numbers and no enum, since C reads them (include/ikparumo.h).

pub const NEITHER: u64 = 0;

pub const WHOLE: u64 = 1;

pub const FLOAT: u64 = 2;
