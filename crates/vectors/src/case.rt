// A case, and what the lines of `ask` and `word` are made of.
ghost use Rattle.std.specs.Prelude.{◌≡◌, slice_index};
ghost use Rattle.io.specs.Counts.{IsPrefixLen};
ghost use Rattle.vector_lines.specs.Fields.{payload_form};

use connection::Connection;
use term_spec::Refusal;
use vector_lines::{put_byte, put_decimal, put_word};

// All bytes of a case, the message among them, and what is lent of the atom list.
#[derive(Clone, Copy)]
pub struct Case<'a> {
    pub bytes: &'a [u8],
    pub msg: &'a [u8],
    pub places: &'a [u8],
    pub lengths: &'a [u16],
}

impl Case<'_> {
    // The connection record of a case.
    pub fn connection(self) -> Connection
        ensures { result.flags ≡ slice_index self.entry.bytes.now 7 }
    {
        Connection {
            flags: vector_lines::connection_flags(self.bytes),
        }
    }

    // n of the atom list.
    pub fn list_count(self) -> u8
        ensures { result ≡ slice_index self.entry.bytes.now 6 }
    {
        vector_lines::list_count(self.bytes)
    }

    // Whether the message is a payload, by the case's form.
    pub fn is_payload(self) -> bool
        ensures { result ≡ payload_form (slice_index self.entry.bytes.now 0) }
    {
        vector_lines::is_payload(self.bytes)
    }
}

// A word, then a comma and n in decimal.
pub fn put_named(dst: &mut [u8], at: usize, word: &[u8], n: u64) -> usize
    ensures { IsPrefixLen result dst.new }
{
    let a = put_word(dst, at, word);
    let b = put_byte(dst, a, b',');
    put_decimal(dst, b, n)
}

// A word and two numbers, parted by commas.
pub fn put_pair(dst: &mut [u8], at: usize, word: &[u8], first: usize, second: usize) -> usize
    ensures { IsPrefixLen result dst.new }
{
    let a = put_named(dst, at, word, first as u64);
    put_named(dst, a, b"", second as u64)
}

// A refusal's number and place.
pub fn put_refused(dst: &mut [u8], at: usize, r: Refusal) -> usize
    ensures { IsPrefixLen result dst.new }
{
    put_pair(dst, at, b"refused", usize::from(r.number), r.place)
}

// Whether the text is the n bytes of src from `start` on.
fn stands(src: &[u8], start: usize, n: usize, text: &[u8]) -> bool {
    if text.len() != n || src.len() < start || src.len() - start < n {
        return false;
    }
    octets::same(src, start, text, 0, n)
}

// ` differs` if the text is not that stretch of src.
pub fn put_differs(
    dst: &mut [u8],
    at: usize,
    src: &[u8],
    start: usize,
    n: usize,
    text: &[u8],
) -> usize
    ensures { IsPrefixLen result dst.new }
{
    if stands(src, start, n, text) {
        return put_word(dst, at, b"");
    }
    put_word(dst, at, b" differs")
}

// A space, but not at the line's start.
pub fn put_space(dst: &mut [u8], at: usize) -> usize
    ensures { IsPrefixLen result dst.new }
{
    if at == 0 {
        return 0;
    }
    put_byte(dst, at, b' ')
}
