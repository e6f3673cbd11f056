// The kinds of a row (docs/ROWS.md): numbers and no enum, since C reads them in the row's word.

pub const INTEGER: usize = 1;

pub const FLOAT: usize = 2;

pub const ATOM: usize = 3;

pub const TUPLE: usize = 4;

pub const LIST: usize = 5;

pub const IMPROPER_LIST: usize = 6;

pub const BINARY: usize = 7;

pub const BITSTRING: usize = 8;

pub const MAP: usize = 9;

pub const PID: usize = 10;

pub const PORT: usize = 11;

pub const REFERENCE: usize = 12;

pub const EXPORT: usize = 13;
// A character of a 107.
pub const CHARACTER: usize = 14;
