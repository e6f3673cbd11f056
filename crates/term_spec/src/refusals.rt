// The refusal numbers: numbers and no enum, as the definitions have them and C is answered them.

// Empty, or first byte not 131.
pub const NO_VERSION: u8 = 1;
// Bytes end inside, or before, what is being read.
pub const CUT: u8 = 2;
// Tag not in the table.
pub const TAG: u8 = 3;
// A field or the tag of a part breaks its rule.
pub const FIELD: u8 = 4;
// Text not UTF-8, or over 255 characters.
pub const TEXT: u8 = 5;
// Reference index not below n.
pub const INDEX: u8 = 6;
// Key equal to an earlier key.
pub const KEY: u8 = 7;
// Depth over 64.
pub const DEPTH: u8 = 8;
// No row left.
pub const ROWS: u8 = 9;
// Bytes left over.
pub const LEFT_OVER: u8 = 10;
// Output shorter than the canonical form.
pub const OUTPUT: u8 = 11;
// Term, payload or gathered bytes over 65,536.
pub const LONG: u8 = 12;
// A cache, list or gather buffer not of its stated size.
pub const SIZE: u8 = 13;
// Lent state false.
pub const STATE: u8 = 14;
// Second byte not 68, 69, 70.
pub const PACKET: u8 = 20;
// Cached place empty.
pub const EMPTY_PLACE: u8 = 21;
// Place named again beside a new entry.
pub const NAMED_AGAIN: u8 = 22;
// Text over 32 bytes as UTF-8.
pub const LONG_TEXT: u8 = 23;
// FragmentId 0, or not the one due.
pub const FRAGMENT: u8 = 24;
// No sequence pending, or another id.
pub const SEQUENCE: u8 = 25;
// A start while one is pending.
pub const PENDING: u8 = 26;
