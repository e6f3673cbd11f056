// The rows of terms in a table: stepped over, and what two of them say compared.
#![tactic(auto)]

ghost use Rattle.std.specs.Prelude.{◌≡◌, false, ◌+◌, ◌*◌, ◌-◌, ◌<◌, get_or};
ghost use Rattle.term_spec.specs.Rows.{kind_in, offset_in};
ghost use Rattle.row_fields.specs.Found.{content_of};
ghost use Rattle.row_fields.specs.Meaning.{term_kind};
ghost use Rattle.term_rows.specs.Rows.{same_row, unordered_rows, pair_size};

use row::{kind_in, offset_in, parts_in, size_in};
use row_compare::same_content;
use row_fields::{Content, content_at};
use term_spec::{kinds, sizes};

// The row at an index of the table as its word, 0 past its end. A number and no Option: 0 is no row's word, and the definitions of hashes and comparisons read a table so.
pub fn row_at(table: &[u64], i: usize) -> u64
    ensures { result ≡ get_or table.now i 0 }
{
    table.get(i).copied().unwrap_or(0)
}

// A character of a 107 is an integer.
#[tactic(auto, unfolding(row_fields::specs::Meaning::term_kind))]
pub fn term_kind(kind: usize) -> usize
    ensures { result ≡ term_kind kind }
{
    if kind == kinds::CHARACTER {
        kinds::INTEGER
    } else {
        kind
    }
}

// A message, its atom list and the table of its terms' rows, as they are lent.
#[derive(Clone, Copy)]
pub struct Rows<'a> {
    pub msg: &'a [u8],
    pub places: &'a [u8],
    pub lengths: &'a [u16],
    pub table: &'a [u64],
}

impl Rows<'_> {
    // The own fields of the term of a row's word.
    pub fn content(&self, w: u64) -> Content
        ensures { result ≡ content_of self.now.msg.now self.now.places.now self.now.lengths.now (kind_in w) (offset_in w) }
    {
        content_at(
            self.msg,
            self.places,
            self.lengths,
            kind_in(w),
            offset_in(w),
        )
    }

    // Whether two words of rows say the same fields and number of parts.
    #[tactic(auto, unfolding(crate::specs::Rows::same_row, crate::specs::Rows::same_fields))]
    pub fn same_row(&self, v: u64, w: u64) -> bool
        ensures { result ≡ same_row self.now.msg.now self.now.places.now self.now.lengths.now v w }
    {
        term_kind(kind_in(v)) == term_kind(kind_in(w))
            && parts_in(v) == parts_in(w)
            && same_content(self.msg, self.places, self.content(v), self.content(w))
    }
}

// How many rows after a row stand in no order: of a map that has pairs all others of its term, else none. A count, and 0 is one.
#[tactic(auto, unfolding(crate::specs::Rows::unordered_rows))]
pub fn unordered_rows(w: u64) -> usize
    ensures { (result ≡ unordered_rows w) × (result < 16384) }
{
    if kind_in(w) == kinds::MAP && sizes::PAIR_PARTS <= parts_in(w) {
        size_in(w).saturating_sub(1)
    } else {
        0
    }
}

// How many rows the term at a row and the next one have.
#[tactic(auto, unfolding(crate::specs::Rows::pair_size))]
pub fn pair_size(table: &[u64], at: usize) -> usize
    requires { at < 4611686018427387904 }
    ensures { (result ≡ pair_size table.now at) × (result < 32768) }
{
    let k = size_in(row_at(table, at));
    let v = size_in(row_at(table, at + k));
    k + v
}
