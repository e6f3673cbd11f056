// A term's own fields in canonical form, by its content: layouts of the bytes before its parts, and of those after them.
#![tactic(auto)]

ghost use Rattle.std.specs.Prelude.{◌≡◌, List, [], ℕ, ◌*◌, ◌-◌, ◌≤◌, ◌<◌, length, pos, negsuc};
ghost use Rattle.term_spec.specs.Numbers.{digits, little_endian, with_sign};
ghost use Rattle.term_spec.specs.Text.{encodes};
ghost use Rattle.term_spec.specs.Head.{clear_low};
ghost use Rattle.term_spec.specs.Term.{tuple, list, binary, bitstring, pid, port, reference};
ghost use Rattle.term_spec.specs.Canonical.{big_bytes, integer_bytes, atom_bytes};
ghost use Rattle.row_fields.specs.Meaning.{sign, coded, words_at, bare, label_of};
ghost use Rattle.octets.specs.Parts.{stretch, source};
ghost use Rattle.layout.specs.Layout.{body_bytes, Inside, BodyInside, Lays, laid_of};
ghost use Rattle.canonical_fields.specs.Shape.{tagged_bytes, before, after};
ghost use Rattle.canonical_fields.specs.Sound.{High, BytesOnly, SoundText, SoundContent, listed_in, content_in};

use layout::{Body, Layout, NO_NUMBER};
use row_fields::Content;
use term_spec::{kinds, tags};

// The IDs of ports below this are written with tag 89.
const NEW_PORT_IDS: u64 = 1 << 28;

// One past the greatest integer that a 98 holds, and the magnitude of the least.
const INTEGER_END: u64 = 1 << 31;

// The layout of a tag, a number of so many bytes, and a body.
#[inline]
fn tagged(tag: u8, width: usize, n: u64, body: Body) -> Layout
    requires { width ≤ 8 }
    ensures { (m places : List ℕ) → BodyInside m places body → Lays m places (tagged_bytes tag width n (body_bytes m places body)) result }
{
    layout::laid((1, u64::from(tag)), (width, n), NO_NUMBER, body)
}

// The layout of a tag, a number of so many bytes, a number of one byte, and a body.
#[inline]
fn tagged_twice(tag: u8, width: usize, n: u64, byte: u64, body: Body) -> Layout
    ensures { result ≡ laid_of 1 tag width n 1 byte body }
{
    layout::laid((1, u64::from(tag)), (width, n), (1, byte), body)
}

// An integer by its sign and the digits of its magnitude, of which there are at most 8.
fn digits_lead(negative: bool, n: u64) -> Layout
    ensures { (m places : List ℕ) → Lays m places (big_bytes (sign negative) (digits n)) result }
{
    let count = layout::count_digits(n) as u64;
    let digits = Body::Digits { number: n };
    tagged_twice(tags::SMALL_BIG_EXT, 1, count, u64::from(negative), digits)
}

// An integer that is not negative.
fn positive_lead(n: u64) -> Layout
    ensures { (m places : List ℕ) → Lays m places (integer_bytes (pos n)) result }
{
    if n < 256 {
        return tagged(tags::SMALL_INTEGER_EXT, 1, n, Body::Empty);
    }
    if n < INTEGER_END {
        return tagged(tags::INTEGER_EXT, 4, n, Body::Empty);
    }
    digits_lead(false, n)
}

// A negative integer.
fn negative_lead(n: u64) -> Layout
    requires { 0 < n }
    ensures { (m places : List ℕ) → Lays m places (integer_bytes (negsuc (n - 1))) result }
{
    if n <= INTEGER_END {
        return tagged(tags::INTEGER_EXT, 4, (1 << 32) - n, Body::Empty);
    }
    digits_lead(true, n)
}

// An integer of more than 8 digits, which stand in the message.
fn big_lead(negative: bool, start: usize, n: usize) -> Layout
    ensures { (m places : List ℕ) → High m start n → BytesOnly m → Lays m places (integer_bytes (with_sign (sign negative) (little_endian (stretch m start n)))) result }
{
    let digits = Body::Part {
        listed: false,
        start,
        length: n,
    };
    let sign = u64::from(negative);
    if n <= 255 {
        return tagged_twice(tags::SMALL_BIG_EXT, 1, n as u64, sign, digits);
    }
    tagged_twice(tags::LARGE_BIG_EXT, 4, n as u64, sign, digits)
}

// An atom whose text is this body, of n bytes.
fn text_lead(n: usize, body: Body) -> Layout
    ensures { (m places : List ℕ) → BodyInside m places body → n ≡ length (body_bytes m places body) → Lays m places (atom_bytes (body_bytes m places body)) result }
{
    if n <= 255 {
        return tagged(tags::SMALL_ATOM_UTF8_EXT, 1, n as u64, body);
    }
    tagged(tags::ATOM_UTF8_EXT, 2, n as u64, body)
}

// An atom whose text stands in the message or in the list, in Latin-1 or UTF-8.
#[tactic(auto, unfolding(row_fields::specs::Meaning::coded, layout::specs::Layout::body_bytes, layout::specs::Layout::BodyInside))]
fn text(msg: &[u8], places: &[u8], latin1: bool, listed: bool, start: usize, n: usize) -> Layout
    requires { SoundText msg.now places.now latin1 listed start n }
    ensures { Lays msg.now places.now (atom_bytes (encodes (coded latin1 (stretch (source msg.now places.now listed) start n)))) result }
{
    if latin1 {
        let body = Body::Latin1 {
            listed,
            start,
            length: n,
        };
        let spelt = layout::body_length(msg, places, body);
        return text_lead(spelt, body);
    }
    let body = Body::Part {
        listed,
        start,
        length: n,
    };
    text_lead(n, body)
}

// A binary.
fn bytes_lead(start: usize, n: usize) -> Layout
    ensures { (m places : List ℕ) → Inside m start n → Lays m places (before (binary (stretch m start n)) 0) result }
{
    let body = Body::Part {
        listed: false,
        start,
        length: n,
    };
    tagged(tags::BINARY_EXT, 4, n as u64, body)
}

// A bitstring.
fn bits_lead(bits: usize, start: usize, n: usize) -> Layout
    ensures { (m places : List ℕ) → Inside m start n → 1 ≤ n → Lays m places (before (bitstring bits (clear_low bits (stretch m start n))) 0) result }
{
    let body = Body::Bits {
        bits,
        start,
        length: n,
    };
    tagged_twice(tags::BIT_BINARY_EXT, 4, n as u64, bits as u64, body)
}

// A tuple of n elements.
fn tuple_lead(n: usize) -> Layout
    ensures { (m places : List ℕ) → Lays m places (before tuple n) result }
{
    if n <= 255 {
        return tagged(tags::SMALL_TUPLE_EXT, 1, n as u64, Body::Empty);
    }
    tagged(tags::LARGE_TUPLE_EXT, 4, n as u64, Body::Empty)
}

// A list of n elements that is written with them.
fn list_lead(n: usize) -> Layout
    ensures { (m places : List ℕ) → Lays m places (before list n) result }
{
    if n == 0 {
        return tagged(tags::NIL_EXT, 0, 0, Body::Empty);
    }
    tagged(tags::LIST_EXT, 4, n as u64, Body::Empty)
}

// A term that has no fields of its own but its number of parts.
fn bare_lead(kind: usize, n: usize) -> Layout
    requires { kind ≡ 6 → 0 < n }
    ensures { (m places : List ℕ) → Lays m places (before (bare kind) n) result }
{
    match kind {
        kinds::TUPLE => tuple_lead(n),
        kinds::LIST => list_lead(n),
        kinds::IMPROPER_LIST => tagged(tags::LIST_EXT, 4, (n - 1) as u64, Body::Empty),
        kinds::MAP => tagged(tags::MAP_EXT, 4, (n / 2) as u64, Body::Empty),
        _ => tagged(tags::EXPORT_EXT, 0, 0, Body::Empty),
    }
}

// A port with this ID.
fn port_lead(id: u64) -> Layout
    ensures { (creation n : ℕ) (m places : List ℕ) → Lays m places (before (port id creation) n) result }
{
    if id < NEW_PORT_IDS {
        return tagged(tags::NEW_PORT_EXT, 0, 0, Body::Empty);
    }
    tagged(tags::V4_PORT_EXT, 0, 0, Body::Empty)
}

// The bytes before the parts of a term of this kind, with this content and n parts.
pub fn lead(msg: &[u8], places: &[u8], kind: usize, content: Content, n: usize) -> Layout
    requires { SoundContent msg.now places.now content × (kind ≡ 6 → 0 < n) }
    ensures { Lays msg.now places.now (before (label_of msg.now (listed_in places.now) kind content) n) result }
{
    match content {
        Content::Nothing => bare_lead(kind, n),
        Content::Whole {
            negative,
            magnitude,
        } => {
            if negative {
                negative_lead(magnitude)
            } else {
                positive_lead(magnitude)
            }
        }
        Content::Big {
            negative,
            start,
            digits,
        } => big_lead(negative, start, digits),
        Content::Float { bits } => tagged(tags::NEW_FLOAT_EXT, 8, bits, Body::Empty),
        Content::Text {
            latin1,
            listed,
            start,
            length,
        } => text(msg, places, latin1, listed, start, length),
        Content::Bytes { start, length } => bytes_lead(start, length),
        Content::Bits {
            bits,
            start,
            length,
        } => bits_lead(bits, start, length),
        Content::Pid { .. } => tagged(tags::NEW_PID_EXT, 0, 0, Body::Empty),
        Content::Port { id, .. } => port_lead(id),
        Content::Reference { words, .. } => {
            tagged(tags::NEWER_REFERENCE_EXT, 2, words as u64, Body::Empty)
        }
    }
}

// Nothing after the parts.
fn no_trail() -> Layout
    ensures { (m places : List ℕ) → Lays m places [] result }
{
    layout::laid(NO_NUMBER, NO_NUMBER, NO_NUMBER, Body::Empty)
}

// The end of a list of n elements that is written with them.
fn list_trail(n: usize) -> Layout
    ensures { (m places : List ℕ) → Lays m places (after list n) result }
{
    if n == 0 {
        return no_trail();
    }
    tagged(tags::NIL_EXT, 0, 0, Body::Empty)
}

// The end of a term that has no fields of its own but its number of parts.
fn bare_trail(kind: usize, n: usize) -> Layout
    ensures { (m places : List ℕ) → Lays m places (after (bare kind) n) result }
{
    if kind == kinds::LIST {
        return list_trail(n);
    }
    no_trail()
}

// The fields of a pid after its node.
fn pid_trail(id: u64, serial: u64, creation: u64) -> Layout
    ensures { (n : ℕ) (m places : List ℕ) → Lays m places (after (pid id serial creation) n) result }
{
    layout::laid((4, id), (4, serial), (4, creation), Body::Empty)
}

// The fields of a port after its node.
fn port_trail(id: u64, creation: u64) -> Layout
    ensures { (n : ℕ) (m places : List ℕ) → Lays m places (after (port id creation) n) result }
{
    if id < NEW_PORT_IDS {
        return layout::laid((4, id), (4, creation), NO_NUMBER, Body::Empty);
    }
    layout::laid((8, id), (4, creation), NO_NUMBER, Body::Empty)
}

// The fields of a reference after its node, with so many words from `start` on.
fn words_trail(creation: u64, start: usize, words: usize) -> Layout
    requires { words ≤ 65536 }
    ensures { (n : ℕ) (m places : List ℕ) → Inside m start (4 * words) → BytesOnly m → Lays m places (after (reference creation (words_at m start words)) n) result }
{
    let body = Body::Part {
        listed: false,
        start,
        length: 4 * words,
    };
    layout::laid((4, creation), NO_NUMBER, NO_NUMBER, body)
}

// The bytes after the parts of a term of this kind, with this content and n parts.
pub fn trail(msg: &[u8], places: &[u8], kind: usize, content: Content, n: usize) -> Layout
    requires { SoundContent msg.now places.now content }
    ensures { Lays msg.now places.now (after (label_of msg.now (listed_in places.now) kind content) n) result }
{
    match content {
        Content::Nothing => bare_trail(kind, n),
        Content::Pid {
            id,
            serial,
            creation,
        } => pid_trail(id, serial, creation),
        Content::Port { id, creation } => port_trail(id, creation),
        Content::Reference {
            creation,
            start,
            words,
        } => words_trail(creation, start, words),
        _ => no_trail(),
    }
}

// The own fields of the term whose row this is.
pub fn content(msg: &[u8], places: &[u8], lengths: &[u16], word: u64) -> Content
    ensures { result ≡ content_in msg.now places.now lengths.now word }
{
    row_fields::content_at(
        msg,
        places,
        lengths,
        row::kind_in(word),
        row::offset_in(word),
    )
}
