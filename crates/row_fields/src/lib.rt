// The own fields of a row's term, found again in the message and the atom list. The message was read before: only bounds are tested.
#![tactic(auto)]

ghost use Rattle.std.specs.Prelude.{◌≡◌, ◌+◌, ◌-◌, ◌≤◌, ◌<◌, length, get_or, take, drop, MatchOption, ⊤};
ghost use Rattle.term_spec.specs.Numbers.{little_endian};
ghost use Rattle.row_fields.specs.Found.{Width, stripped, byte_found, signed_whole, signed_found, integer_of, stripped_found, big_found, integer_found, float_found, text_width, text_found, place_found, listed_found, atom_found, text_end, atom_end, bytes_found, bits_of, bits_found, binary_found, pid_found, port_found, words_found, word_found, counted_found, pids_found, ports_found, references_found, content_of};

use term_spec::{kinds, sizes, tags};

// A term's own fields.
#[derive(Clone, Copy)]
pub enum Content {
    // no fields: a tuple, a list, an improper list, a map, an export; or no such fields there
    // A variant and no Option<Content>: None would stand for both as well, and each match would write Some(..) in its nine other arms.
    Nothing,
    // an integer of at most 8 digits; zero is not negative
    Whole {
        negative: bool,
        magnitude: u64,
    },
    // an integer of more digits, the highest not zero, least first from `start` in the message
    Big {
        negative: bool,
        start: usize,
        digits: usize,
    },
    Float {
        bits: u64,
    },
    // a stretch of the message, or of the list's places
    Text {
        latin1: bool,
        listed: bool,
        start: usize,
        length: usize,
    },
    Bytes {
        start: usize,
        length: usize,
    },
    // 1 to 7 bits of the last byte count
    Bits {
        bits: usize,
        start: usize,
        length: usize,
    },
    Pid {
        id: u64,
        serial: u64,
        creation: u64,
    },
    Port {
        id: u64,
        creation: u64,
    },
    // words of four bytes from `start` in the message
    Reference {
        creation: u64,
        start: usize,
        words: usize,
    },
}

// The number of the n digits from `start` on, up to the highest that is not zero.
#[tactic(auto, using(crate::proofs::Digits::strip_here, crate::proofs::Digits::strip_next, crate::proofs::Digits::strip_none))]
fn strip(msg: &[u8], start: usize, n: usize) -> usize
    requires { start + n ≤ length msg.now }
    ensures { (result ≡ stripped msg.now start n) × (result ≤ n) }
{
    for k in (0..n).rev() {
        if msg[start + k] != 0 {
            return k + 1;
        }
    }
    0
}

// The magnitude of the n digits from `start` on, least first.
#[tactic(auto, using(crate::proofs::Digits::summed_none, crate::proofs::Digits::summed_room, crate::proofs::Digits::summed_all))]
fn little(msg: &[u8], start: usize, n: usize) -> u64
    requires { (start + n ≤ length msg.now) × (n ≤ 8) }
    ensures { result ≡ little_endian (take n (drop start msg.now)) }
{
    let mut sum = 0u64;
    for k in (0..n).rev() {
        sum = sum * 256 + u64::from(msg[start + k]);
    }
    sum
}

// The integer in the byte at `at`.
#[tactic(auto, using(octets::proofs::Numbers::big_one), unfolding(crate::specs::Found::byte_found))]
fn byte(msg: &[u8], at: usize) -> Content
    ensures { result ≡ byte_found msg.now at }
{
    if msg.len() <= at {
        return Content::Nothing;
    }
    Content::Whole {
        negative: false,
        magnitude: u64::from(msg[at]),
    }
}

#[tactic(auto, unfolding(crate::specs::Found::signed_whole))]
fn signed_of(n: u64) -> Content
    requires { n < 4294967296 }
    ensures { result ≡ signed_whole n }
{
    if n < 2147483648 {
        return Content::Whole {
            negative: false,
            magnitude: n,
        };
    }
    Content::Whole {
        negative: true,
        magnitude: 4294967296 - n,
    }
}

// The integer of 32 bits whose tag is at `at`.
#[tactic(auto, unfolding(crate::specs::Found::signed_found))]
fn signed(msg: &[u8], at: usize) -> Content
    ensures { result ≡ signed_found msg.now at }
{
    if msg.len().saturating_sub(at) < 5 {
        return Content::Nothing;
    }
    signed_of(octets::big::<4>(msg, at + 1))
}

#[tactic(auto, unfolding(crate::specs::Found::integer_of))]
fn whole(negative: bool, n: u64) -> Content
    ensures { result ≡ integer_of negative n }
{
    if n == 0 {
        return Content::Whole {
            negative: false,
            magnitude: 0,
        };
    }
    Content::Whole {
        negative,
        magnitude: n,
    }
}

// The integer of n digits, the highest not zero.
#[tactic(auto, unfolding(crate::specs::Found::stripped_found))]
fn of_digits(msg: &[u8], negative: bool, start: usize, n: usize) -> Content
    requires { start + n ≤ length msg.now }
    ensures { result ≡ stripped_found msg.now negative start n }
{
    if 8 < n {
        return Content::Big {
            negative,
            start,
            digits: n,
        };
    }
    whole(negative, little(msg, start, n))
}

// The integer by sign and digits whose tag is at `at`, with w bytes of the digits' number.
#[tactic(auto, unfolding(crate::specs::Found::big_found, crate::specs::Found::if_counted))]
fn big(msg: &[u8], w: usize, at: usize) -> Content
    requires { Width w × (at < length msg.now) }
    ensures { result ≡ big_found msg.now w at }
{
    let Some(end) = octets::past_counted(msg, at, w, 1) else {
        return Content::Nothing;
    };
    let start = at + 2 + w;
    let negative = 0 < octets::big::<1>(msg, at + 1 + w);
    of_digits(msg, negative, start, strip(msg, start, end - start))
}

// The integer whose tag is at `at`.
#[tactic(auto, unfolding(crate::specs::Found::integer_found))]
fn integer(msg: &[u8], at: usize, tag: u8) -> Content
    requires { at < length msg.now }
    ensures { result ≡ integer_found msg.now at tag }
{
    match tag {
        tags::SMALL_INTEGER_EXT => byte(msg, at + 1),
        tags::INTEGER_EXT => signed(msg, at),
        tags::SMALL_BIG_EXT => big(msg, 1, at),
        tags::LARGE_BIG_EXT => big(msg, 4, at),
        _ => Content::Nothing,
    }
}

// The float whose tag is at `at`.
#[tactic(auto, unfolding(crate::specs::Found::float_found))]
fn float(msg: &[u8], at: usize) -> Content
    ensures { result ≡ float_found msg.now at }
{
    if msg.len().saturating_sub(at) < 9 {
        return Content::Nothing;
    }
    let bits = octets::big::<8>(msg, at + 1);
    Content::Float { bits }
}

// The width of the length of an atom with this tag; None for one of the list, which has none.
#[tactic(auto, unfolding(crate::specs::Found::text_width))]
fn width_of(tag: u8) -> Option<usize>
    ensures { (result ≡ text_width tag) × MatchOption result ⊤ Width }
{
    match tag {
        tags::ATOM_EXT | tags::ATOM_UTF8_EXT => Some(2),
        tags::SMALL_ATOM_EXT | tags::SMALL_ATOM_UTF8_EXT => Some(1),
        _ => None,
    }
}

// The text in the message of the atom whose tag is at `at`.
#[tactic(auto, unfolding(crate::specs::Found::text_found, crate::specs::Found::if_counted))]
fn text(msg: &[u8], w: usize, latin1: bool, at: usize) -> Content
    requires { Width w × (at < length msg.now) }
    ensures { result ≡ text_found msg.now w latin1 at }
{
    let Some(end) = octets::past_counted(msg, at, w, 0) else {
        return Content::Nothing;
    };
    let start = at + 1 + w;
    Content::Text {
        latin1,
        listed: false,
        start,
        length: end - start,
    }
}

// The text of the list's place i.
#[tactic(auto, unfolding(crate::specs::Found::place_found))]
fn place(places: &[u8], lengths: &[u16], i: usize) -> Content
    requires { i < 256 }
    ensures { result ≡ place_found places.now lengths.now i }
{
    if lengths.len() <= i {
        return Content::Nothing;
    }
    let n = usize::from(lengths[i]);
    let start = sizes::PLACE_BYTES * i;
    if places.len().saturating_sub(start) < n {
        return Content::Nothing;
    }
    Content::Text {
        latin1: false,
        listed: true,
        start,
        length: n,
    }
}

// The text in the list of the atom whose tag is at `at`.
#[tactic(auto, unfolding(crate::specs::Found::listed_found))]
fn listed(msg: &[u8], places: &[u8], lengths: &[u16], at: usize) -> Content
    ensures { result ≡ listed_found msg.now places.now lengths.now at }
{
    if msg.len().saturating_sub(at) < 2 {
        return Content::Nothing;
    }
    place(places, lengths, octets::big::<1>(msg, at + 1) as usize)
}

// The atom whose tag is at `at`.
#[tactic(auto, unfolding(crate::specs::Found::atom_found))]
fn atom(msg: &[u8], places: &[u8], lengths: &[u16], at: usize, tag: u8) -> Content
    requires { at < length msg.now }
    ensures { result ≡ atom_found msg.now places.now lengths.now at tag }
{
    match width_of(tag) {
        Some(w) => text(msg, w, tag < tags::ATOM_UTF8_EXT, at),
        None => listed(msg, places, lengths, at),
    }
}

#[tactic(auto, unfolding(crate::specs::Found::text_end))]
fn text_end(msg: &[u8], width: Option<usize>, at: usize) -> usize
    requires { MatchOption width ⊤ Width × (at < length msg.now) }
    ensures { result ≡ text_end msg.now width at }
{
    match width {
        Some(w) => octets::past_counted(msg, at, w, 0).unwrap_or(msg.len()),
        None => at + 2,
    }
}

// Where the atom whose tag is at `at` ends.
#[tactic(auto, unfolding(crate::specs::Found::atom_end))]
fn atom_end(msg: &[u8], at: usize) -> usize
    ensures { result ≡ atom_end msg.now at }
{
    if msg.len() <= at {
        return msg.len();
    }
    text_end(msg, width_of(msg[at]), at)
}

// The bytes of the binary whose tag is at `at`.
#[tactic(auto, unfolding(crate::specs::Found::bytes_found, crate::specs::Found::if_counted))]
fn bytes(msg: &[u8], at: usize) -> Content
    requires { at < length msg.now }
    ensures { result ≡ bytes_found msg.now at }
{
    let Some(end) = octets::past_counted(msg, at, 4, 0) else {
        return Content::Nothing;
    };
    Content::Bytes {
        start: at + 5,
        length: end - (at + 5),
    }
}

#[tactic(auto, unfolding(crate::specs::Found::bits_of))]
fn of_bits(bits: usize, start: usize, n: usize) -> Content
    ensures { result ≡ bits_of bits start n }
{
    if bits == 0 || bits == 8 {
        Content::Bytes { start, length: n }
    } else {
        Content::Bits {
            bits,
            start,
            length: n,
        }
    }
}

// The bits of the bitstring whose tag is at `at`.
#[tactic(auto, unfolding(crate::specs::Found::bits_found, crate::specs::Found::if_counted))]
fn bits(msg: &[u8], at: usize) -> Content
    requires { at < length msg.now }
    ensures { result ≡ bits_found msg.now at }
{
    let Some(end) = octets::past_counted(msg, at, 4, 1) else {
        return Content::Nothing;
    };
    of_bits(
        octets::big::<1>(msg, at + 5) as usize,
        at + 6,
        end - (at + 6),
    )
}

// The binary or bitstring whose tag is at `at`.
#[tactic(auto, unfolding(crate::specs::Found::binary_found))]
fn binary(msg: &[u8], at: usize, tag: u8) -> Content
    requires { at < length msg.now }
    ensures { result ≡ binary_found msg.now at tag }
{
    match tag {
        tags::BIT_BINARY_EXT => bits(msg, at),
        _ => bytes(msg, at),
    }
}

// The pid whose node ends at `end`, with w bytes of Creation.
#[tactic(auto, unfolding(crate::specs::Found::pid_found))]
fn pid_from(msg: &[u8], w: usize, end: usize) -> Content
    requires { Width w }
    ensures { result ≡ pid_found msg.now w end }
{
    if msg.len().saturating_sub(end) < 8 + w {
        return Content::Nothing;
    }
    let id = octets::big::<4>(msg, end);
    let serial = octets::big::<4>(msg, end + 4);
    let creation = octets::number(msg, end + 8, w);
    Content::Pid {
        id,
        serial,
        creation,
    }
}

// The port whose node ends at `end`, with v bytes of ID and w of Creation.
#[tactic(auto, unfolding(crate::specs::Found::port_found))]
fn port_from(msg: &[u8], v: usize, w: usize, end: usize) -> Content
    requires { Width v × Width w }
    ensures { result ≡ port_found msg.now v w end }
{
    if msg.len().saturating_sub(end) < v + w {
        return Content::Nothing;
    }
    let id = octets::number(msg, end, v);
    let creation = octets::number(msg, end + v, w);
    Content::Port { id, creation }
}

// The reference of n words whose node ends at `end`, with w bytes of Creation.
#[tactic(auto, unfolding(crate::specs::Found::words_found))]
fn words_from(msg: &[u8], w: usize, n: usize, end: usize) -> Content
    requires { Width w × (n < 65536) }
    ensures { result ≡ words_found msg.now w n end }
{
    if msg.len().saturating_sub(end) < w + 4 * n {
        return Content::Nothing;
    }
    let creation = octets::number(msg, end, w);
    Content::Reference {
        creation,
        start: end + w,
        words: n,
    }
}

// The reference of one word whose node ends at `end`.
#[tactic(auto, unfolding(crate::specs::Found::word_found))]
fn word_from(msg: &[u8], end: usize) -> Content
    ensures { result ≡ word_found msg.now end }
{
    if msg.len().saturating_sub(end) < 5 {
        return Content::Nothing;
    }
    let creation = octets::big::<1>(msg, end + 4);
    Content::Reference {
        creation,
        start: end,
        words: 1,
    }
}

// The reference with a number of words whose tag is at `at`.
#[tactic(auto, unfolding(crate::specs::Found::counted_found))]
fn counted(msg: &[u8], w: usize, at: usize) -> Content
    requires { Width w }
    ensures { result ≡ counted_found msg.now w at }
{
    if msg.len().saturating_sub(at) < 3 {
        return Content::Nothing;
    }
    let n = octets::big::<2>(msg, at + 1) as usize;
    words_from(msg, w, n, atom_end(msg, at + 3))
}

// The pid whose tag is at `at`.
#[tactic(auto, unfolding(crate::specs::Found::pids_found))]
fn pid(msg: &[u8], at: usize, tag: u8) -> Content
    requires { at < length msg.now }
    ensures { result ≡ pids_found msg.now at tag }
{
    let end = atom_end(msg, at + 1);
    match tag {
        tags::PID_EXT => pid_from(msg, 1, end),
        _ => pid_from(msg, 4, end),
    }
}

// The port whose tag is at `at`.
#[tactic(auto, unfolding(crate::specs::Found::ports_found))]
fn port(msg: &[u8], at: usize, tag: u8) -> Content
    requires { at < length msg.now }
    ensures { result ≡ ports_found msg.now at tag }
{
    let end = atom_end(msg, at + 1);
    match tag {
        tags::V4_PORT_EXT => port_from(msg, 8, 4, end),
        tags::PORT_EXT => port_from(msg, 4, 1, end),
        _ => port_from(msg, 4, 4, end),
    }
}

// The reference whose tag is at `at`.
#[tactic(auto, unfolding(crate::specs::Found::references_found))]
fn reference(msg: &[u8], at: usize, tag: u8) -> Content
    requires { at < length msg.now }
    ensures { result ≡ references_found msg.now at tag }
{
    match tag {
        tags::REFERENCE_EXT => word_from(msg, atom_end(msg, at + 1)),
        tags::NEW_REFERENCE_EXT => counted(msg, 1, at),
        _ => counted(msg, 4, at),
    }
}

// The own fields of the term of this kind whose tag is at `offset`; of a character, whose byte is there.
#[tactic(auto, unfolding(crate::specs::Found::content_of, crate::specs::Found::kind_found))]
pub fn content_at(msg: &[u8], places: &[u8], lengths: &[u16], kind: usize, offset: usize) -> Content
    ensures { result ≡ content_of msg.now places.now lengths.now kind offset }
{
    if msg.len() <= offset {
        return Content::Nothing;
    }
    let tag = msg[offset];
    match kind {
        kinds::INTEGER => integer(msg, offset, tag),
        kinds::FLOAT => float(msg, offset),
        kinds::ATOM => atom(msg, places, lengths, offset, tag),
        kinds::BINARY => binary(msg, offset, tag),
        kinds::BITSTRING => binary(msg, offset, tag),
        kinds::PID => pid(msg, offset, tag),
        kinds::PORT => port(msg, offset, tag),
        kinds::REFERENCE => reference(msg, offset, tag),
        kinds::CHARACTER => byte(msg, offset),
        _ => Content::Nothing,
    }
}
