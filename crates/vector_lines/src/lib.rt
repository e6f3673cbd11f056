// A book of cases. A line is one case: a verb, which says what is asked (`read`, `write`, `ask`, `word`; its second letter decides), and words, each hex
// or COUNT*HEX for a repetition, all parted by single spaces. The bytes that the words stand for: form (1 byte), rows lent (2), output room (3), n of the atom list (1), the connection's flags (1), number of places given (1), for each of them its length (2), a
// count (1) and that many bytes of text, then the message. Forms: 's' standalone, 'p' payload; 'S', 'P' the same with the places lent a
// byte short, 't', 'q' with a length too many. No function has a `requires`: what is missing counts as 0, what has no room is left out.
#![tactic(auto)]

ghost use Rattle.std.specs.Prelude.{◌≡◌, ◌≤◌, ◌<◌, min, length, get_or};
ghost use Rattle.io.specs.Counts.{IsPrefixLen};
ghost use Rattle.vector_lines.specs.Fields.{verb, payload_form};

use term_spec::{ReadAnswer, Refusal, TermsRead, kinds, sizes};

// What a line asks; a verb that is not known has an answer too, so it is a case and no None.
#[derive(Clone, Copy, Debug, PartialEq, Eq)]
pub enum Verb {
    Read,
    Write,
    Ask,
    Word,
    Unknown,
}

// Puts x after the first `at` bytes of dst, as far as there is room, and answers how many bytes it then has; so do all functions `put_..`.
pub fn put_byte(dst: &mut [u8], at: usize, x: u8) -> usize
    ensures { IsPrefixLen result dst.new }
{
    match dst.get_mut(at) {
        Some(byte) => {
            *byte = x;
            at + 1
        }
        None => dst.len(),
    }
}

pub fn put_word(dst: &mut [u8], at: usize, word: &[u8]) -> usize
    ensures { IsPrefixLen result dst.new }
{
    let mut next = inside(dst, at);
    for x in word {
        next = put_byte(dst, next, *x);
    }
    next
}

pub fn put_decimal(dst: &mut [u8], at: usize, n: u64) -> usize
    ensures { IsPrefixLen result dst.new }
{
    let mut digits = [0u8; 20];
    let k = io::decimal(n, &mut digits);
    put_word(dst, at, &digits[..k])
}

// A space, and n in decimal.
fn put_number(dst: &mut [u8], at: usize, n: usize) -> usize
    ensures { IsPrefixLen result dst.new }
{
    let next = put_byte(dst, at, b' ');
    put_decimal(dst, next, n as u64)
}

// Two digits.
fn put_hex_byte(dst: &mut [u8], at: usize, x: u8) -> usize
    ensures { IsPrefixLen result dst.new }
{
    let digits = b"0123456789abcdef";
    let next = put_byte(dst, at, digits[usize::from(x / 16)]);
    put_byte(dst, next, digits[usize::from(x % 16)])
}

// Two digits for each byte.
pub fn put_hex(dst: &mut [u8], at: usize, bytes: &[u8]) -> usize
    ensures { IsPrefixLen result dst.new }
{
    let mut next = inside(dst, at);
    for x in bytes {
        next = put_hex_byte(dst, next, *x);
    }
    next
}

pub fn put_refused(dst: &mut [u8], at: usize, r: Refusal) -> usize
    ensures { IsPrefixLen result dst.new }
{
    let Refusal { number, place } = r;
    let a = put_word(dst, at, b"refused");
    let b = put_number(dst, a, usize::from(number));
    put_number(dst, b, place)
}

// The name of a kind; a list of no parts has its own.
fn kind_name(kind: usize, parts: usize) -> &'static str {
    match kind {
        kinds::INTEGER | kinds::CHARACTER => "integer",
        kinds::FLOAT => "float",
        kinds::ATOM => "atom",
        kinds::TUPLE => "tuple",
        kinds::LIST if parts == 0 => "nil",
        kinds::LIST | kinds::IMPROPER_LIST => "list",
        kinds::BINARY => "binary",
        kinds::BITSTRING => "bitstring",
        kinds::MAP => "map",
        kinds::PID => "pid",
        kinds::PORT => "port",
        kinds::REFERENCE => "reference",
        kinds::EXPORT => "export",
        _ => "none",
    }
}

// A space, then kind, offset and whole, parted by commas.
fn put_row(dst: &mut [u8], at: usize, w: u64) -> usize
    ensures { IsPrefixLen result dst.new }
{
    let kind = kind_name(row::kind_in(w), row::parts_in(w));
    let a = put_byte(dst, at, b' ');
    let b = put_word(dst, a, kind.as_bytes());
    let c = put_byte(dst, b, b',');
    let d = put_decimal(dst, c, row::offset_in(w) as u64);
    let e = put_byte(dst, d, b',');
    put_whole(dst, e, row::whole_in(w))
}

// The whole's row, where `whole` is that row plus 1, or - for none.
fn put_whole(dst: &mut [u8], at: usize, whole: usize) -> usize
    ensures { IsPrefixLen result dst.new }
{
    match whole.checked_sub(1) {
        Some(row) => put_decimal(dst, at, row as u64),
        None => put_byte(dst, at, b'-'),
    }
}

// Each of the rows.
fn put_rows(dst: &mut [u8], at: usize, rows: &[u64]) -> usize
    ensures { IsPrefixLen result dst.new }
{
    let mut next = inside(dst, at);
    for w in rows {
        next = put_row(dst, next, *w);
    }
    next
}

// ` dirty` if a word from `from` on is not 0, and the line's end.
pub fn put_end(dst: &mut [u8], at: usize, table: &[u64], from: usize) -> usize
    ensures { IsPrefixLen result dst.new }
{
    if table[from.min(table.len())..].iter().all(|w| *w == 0) {
        return put_byte(dst, at, b'\n');
    }
    put_word(dst, at, b" dirty\n")
}

// A reading's answer and the table after it, as one line; the rows where they are at most 100.
pub fn put_read(dst: &mut [u8], table: &[u64], answer: ReadAnswer) -> usize
    ensures { IsPrefixLen result dst.new }
{
    match answer {
        Err(r) => {
            let a = put_refused(dst, 0, r);
            put_end(dst, a, table, 0)
        }
        Ok(TermsRead { terms, rows }) => {
            let shown = if rows <= 100 { rows } else { 0 };
            let a = put_word(dst, 0, b"ok");
            let b = put_number(dst, a, terms);
            let c = put_number(dst, b, rows);
            let d = put_rows(dst, c, &table[..shown.min(table.len())]);
            put_end(dst, d, table, rows)
        }
    }
}

// The end of the line that starts at `from`.
pub fn line_end(src: &[u8], from: usize) -> usize
    ensures { IsPrefixLen result src.now × (min from (length src.now) ≤ result) }
{
    for i in from..src.len() {
        if src[i] == b'\n' {
            return i;
        }
    }
    src.len()
}

// The value of a hex digit.
fn digit(x: u8) -> u8
    ensures { result < 16 }
{
    match x {
        b'0'..=b'9' => x - b'0',
        b'a'..=b'f' => x - b'a' + 10,
        _ => 0,
    }
}

// The bytes that pairs of hex digits stand for.
fn decode_hex(dst: &mut [u8], at: usize, hex: &[u8]) -> usize
    ensures { IsPrefixLen result dst.new }
{
    let mut next = inside(dst, at);
    let (pairs, _) = hex.as_chunks::<2>();
    for [high, low] in pairs {
        next = put_byte(dst, next, digit(*high) * 16 + digit(*low));
    }
    next
}

// The number that decimal digits stand for; of more than six digits the first ones alone.
fn decimal(digits: &[u8]) -> usize
    ensures { result < 2000000 }
{
    let mut n = 0usize;
    for x in digits {
        if n >= 100000 {
            return n;
        }
        n = n * 10 + usize::from(digit(*x));
    }
    n
}

// The bytes of dst from `from` up to `to` once more, after the first `at`.
fn put_again(dst: &mut [u8], at: usize, from: usize, to: usize) -> usize
    ensures { IsPrefixLen result dst.new }
{
    let mut next = inside(dst, at);
    for i in from..inside(dst, to) {
        let x = dst[i];
        next = put_byte(dst, next, x);
    }
    next
}

// The bytes of dst from `from` up to `to`, which are its last, repeated until they stand there `times` times or dst is full.
fn repeat(dst: &mut [u8], from: usize, to: usize, times: usize) -> usize
    ensures { IsPrefixLen result dst.new }
{
    let mut next = inside(dst, to);
    for _ in 1..times {
        if next == dst.len() {
            return next;
        }
        next = put_again(dst, next, from, to);
    }
    next
}

// The bytes of one word; a count of 0 counts as 1.
fn decode_word(dst: &mut [u8], at: usize, word: &[u8]) -> usize
    ensures { IsPrefixLen result dst.new }
{
    match word.iter().position(|x| *x == b'*') {
        None => decode_hex(dst, at, word),
        Some(star) => {
            let next = decode_hex(dst, at, &word[star + 1..]);
            repeat(dst, at, next, decimal(&word[..star]))
        }
    }
}

// What a line asks.
#[tactic(auto, unfolding(crate::specs::Fields::verb, crate::specs::Fields::verb_letter))]
pub fn verb_of(line: &[u8]) -> Verb
    ensures { result ≡ verb line.now }
{
    match byte(line, 1) {
        b'e' => Verb::Read,
        b'r' => Verb::Write,
        b's' => Verb::Ask,
        b'o' => Verb::Word,
        _ => Verb::Unknown,
    }
}

// The bytes of a line's words after its verb.
pub fn decode_line(dst: &mut [u8], line: &[u8]) -> usize
    ensures { IsPrefixLen result dst.new }
{
    let mut next = 0usize;
    for word in line.split(|x| *x == b' ').skip(1) {
        next = decode_word(dst, next, word);
    }
    next
}

// The byte at `at`; 0 where there is none.
fn byte(case: &[u8], at: usize) -> u8
    ensures { result ≡ get_or case.now at 0 }
{
    case.get(at).copied().unwrap_or(0)
}

pub fn number2(case: &[u8], at: usize) -> usize
    ensures { result < 65536 }
{
    usize::from(byte(case, at)) * 256 + usize::from(byte(case, at.saturating_add(1)))
}

pub fn number3(case: &[u8], at: usize) -> usize
    ensures { result < 16777216 }
{
    usize::from(byte(case, at)) * 65536 + number2(case, at.saturating_add(1))
}

// Whether the message is a payload, by the case's form.
#[tactic(auto, unfolding(crate::specs::Fields::payload_form))]
pub fn is_payload(case: &[u8]) -> bool
    ensures { result ≡ payload_form (get_or case.now 0 0) }
{
    matches!(byte(case, 0), b'p' | b'P' | b'q')
}

// n, but at most all the bytes.
pub fn inside(bytes: &[u8], n: usize) -> usize
    ensures { IsPrefixLen result bytes.now }
{
    n.min(bytes.len())
}

// How many words of the table are lent.
pub fn rows_lent(case: &[u8], table: &[u64]) -> usize
    ensures { IsPrefixLen result table.now }
{
    number2(case, 1).min(table.len())
}

// How many bytes of the output are lent.
pub fn room_lent(case: &[u8], out: &[u8]) -> usize
    ensures { IsPrefixLen result out.now }
{
    inside(out, number3(case, 3))
}

// n of the atom list.
pub fn list_count(case: &[u8]) -> u8
    ensures { result ≡ get_or case.now 6 0 }
{
    byte(case, 6)
}

// The connection's flags.
pub fn connection_flags(case: &[u8]) -> u8
    ensures { result ≡ get_or case.now 7 0 }
{
    byte(case, 7)
}

// How many bytes of the atom list's places are lent.
pub fn places_lent(case: &[u8], places: &[u8]) -> usize
    ensures { IsPrefixLen result places.now }
{
    let n = match byte(case, 0) {
        b'S' | b'P' => sizes::LIST_BYTES - 1,
        _ => sizes::LIST_BYTES,
    };
    inside(places, n)
}

// How many of the atom list's lengths are lent.
pub fn lengths_lent(case: &[u8], lengths: &[u16]) -> usize
    ensures { IsPrefixLen result lengths.now }
{
    let n = match byte(case, 0) {
        b't' | b'q' => sizes::LIST_PLACES + 1,
        _ => sizes::LIST_PLACES,
    };
    n.min(lengths.len())
}

// n bytes of src from `from` on, after the first `at` bytes of dst.
fn put_part(dst: &mut [u8], at: usize, src: &[u8], from: usize, n: usize) {
    for (x, y) in dst.iter_mut().skip(at).zip(src.iter().skip(from).take(n)) {
        *x = *y;
    }
}

// Fills in the places given, and answers where the message starts.
pub fn fill_list(case: &[u8], places: &mut [u8], lengths: &mut [u16]) -> usize
    ensures { result ≤ length case.now }
{
    let mut at = 9usize;
    for k in 0..usize::from(byte(case, 8)) {
        if let Some(length) = lengths.get_mut(k) {
            *length = number2(case, at) as u16;
        }
        let n = usize::from(byte(case, at + 2));
        put_part(places, k * sizes::PLACE_BYTES, case, at + 3, n);
        at += n + 3;
    }
    at.min(case.len())
}
