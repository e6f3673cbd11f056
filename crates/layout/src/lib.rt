// Layouts of terms' own fields: numbers in their widths and a body, measured and written.
#![tactic(auto)]

ghost use Rattle.std.specs.Prelude.{◌≡◌, ◌+◌, ◌≤◌, length, take, drop};
ghost use Rattle.std.proofs.lemmas.List.Edits.{sets};
ghost use Rattle.term_spec.specs.Numbers.{digits};
ghost use Rattle.term_spec.specs.Text.{encodes};
ghost use Rattle.term_spec.specs.Head.{clear_low};
ghost use Rattle.octets.specs.Parts.{stretch, source};
ghost use Rattle.layout.specs.Layout.{body_bytes, number_bytes, layout_bytes, Inside, BodyInside, LayoutInside, Put, laid_of};

// What follows the numbers: nothing, bytes as they stand, Latin-1 characters in UTF-8, the digits of a number, or bytes of whose last one some bits count.
#[derive(Clone, Copy)]
pub enum Body {
    Empty,
    Part {
        listed: bool,
        start: usize,
        length: usize,
    },
    Latin1 {
        listed: bool,
        start: usize,
        length: usize,
    },
    Digits {
        number: u64,
    },
    Bits {
        bits: usize,
        start: usize,
        length: usize,
    },
}

// A number in so many bytes, big-endian; none in 0 bytes.
#[derive(Clone, Copy)]
pub struct Number {
    pub width: usize,
    pub value: u64,
}

// Three numbers, then a body.
#[derive(Clone, Copy)]
pub struct Layout {
    pub first: Number,
    pub second: Number,
    pub third: Number,
    pub body: Body,
}

// The width and value of no number.
pub const NO_NUMBER: (usize, u64) = (0, 0);

// The layout of these numbers, each by its width and value, and this body.
#[inline]
#[tactic(auto, unfolding(crate::specs::Layout::laid_of))]
pub fn laid(first: (usize, u64), second: (usize, u64), third: (usize, u64), body: Body) -> Layout
    ensures { result ≡ laid_of first.0 first.1 second.0 second.1 third.0 third.1 body }
{
    Layout {
        first: Number {
            width: first.0,
            value: first.1,
        },
        second: Number {
            width: second.0,
            value: second.1,
        },
        third: Number {
            width: third.0,
            value: third.1,
        },
        body,
    }
}

// Writes the n bytes of a number from `from` on. Never inlined: beside the number's own array LLVM would call memcpy, and for the C interface the library needs memset alone.
#[inline(never)]
fn put_bytes(bytes: &[u8], from: usize, out: &mut [u8], at: usize, n: usize)
    requires { (from + n ≤ length bytes.now) × (at + n ≤ length out.old) }
    ensures { out.new ≡ sets out.old at (take n (drop from bytes.now)) }
{
    octets::copy(bytes, from, out, at, n);
}

// Writes a number from `at` on; the offset past it.
fn put_number(out: &mut [u8], at: usize, n: Number) -> usize
    requires { (n.width ≤ 8) × (at + n.width ≤ length out.old) }
    ensures { Put out.old at (number_bytes n) result out.new }
{
    let end = at + n.width;
    put_bytes(&n.value.to_be_bytes(), 8 - n.width, out, at, n.width);
    end
}

// How many digits n has, the highest not zero.
pub fn count_digits(n: u64) -> usize
    ensures { (result ≡ length (digits n)) × (result ≤ 8) }
{
    8 - n.leading_zeros() as usize / 8
}

// Writes the digits of n, least first, from `at` on; the offset past them.
fn put_digits(out: &mut [u8], at: usize, n: u64) -> usize
    requires { at + length (digits n) ≤ length out.old }
    ensures { Put out.old at (digits n) result out.new }
{
    let count = count_digits(n);
    let end = at + count;
    put_bytes(&n.to_le_bytes(), 0, out, at, count);
    end
}

// Writes the n bytes of `s` from `start` on into `out` from `at` on; the offset past them.
fn put_part(s: &[u8], start: usize, n: usize, out: &mut [u8], at: usize) -> usize
    requires { Inside s.now start n × (at + n ≤ length out.old) }
    ensures { Put out.old at (stretch s.now start n) result out.new }
{
    octets::copy(s, start, out, at, n);
    at + n
}

// Writes them as Latin-1 characters in UTF-8; the offset past them.
fn put_text(s: &[u8], start: usize, n: usize, out: &mut [u8], at: usize) -> usize
    requires { Inside s.now start n × (at + length (encodes (stretch s.now start n)) ≤ length out.old) }
    ensures { Put out.old at (encodes (stretch s.now start n)) result out.new }
{
    let length = text::put_latin1(s, start, n, out, at);
    at + length
}

// Writes them, in the last one only its first `bits` bits, the others zero; the offset past them.
fn put_bits(msg: &[u8], bits: usize, start: usize, n: usize, out: &mut [u8], at: usize) -> usize
    requires { Inside msg.now start n × (1 ≤ n) × (at + n ≤ length out.old) }
    ensures { Put out.old at (clear_low bits (stretch msg.now start n)) result out.new }
{
    let before = n - 1;
    octets::copy(msg, start, out, at, before);
    let last = octets::high_bits(msg[start + before], bits);
    octets::put1(out, at + before, last);
    at + n
}

// How many bytes a body has.
#[tactic(auto, unfolding(crate::specs::Layout::body_bytes, crate::specs::Layout::BodyInside))]
pub fn body_length(msg: &[u8], places: &[u8], body: Body) -> usize
    requires { BodyInside msg.now places.now body }
    ensures { (result ≡ length (body_bytes msg.now places.now body)) × (result ≤ 131072) }
{
    match body {
        Body::Empty => 0,
        Body::Part { length, .. } => length,
        Body::Latin1 {
            listed,
            start,
            length,
        } => text::utf8_length(octets::source(msg, places, listed), start, length),
        Body::Digits { number } => count_digits(number),
        Body::Bits { length, .. } => length,
    }
}

// Writes a body from `at` on; the offset past it.
#[tactic(auto, unfolding(crate::specs::Layout::body_bytes, crate::specs::Layout::BodyInside))]
fn put_body(msg: &[u8], places: &[u8], body: Body, out: &mut [u8], at: usize) -> usize
    requires { BodyInside msg.now places.now body × (at + length (body_bytes msg.now places.now body) ≤ length out.old) }
    ensures { Put out.old at (body_bytes msg.now places.now body) result out.new }
{
    match body {
        Body::Empty => at,
        Body::Part {
            listed,
            start,
            length,
        } => put_part(octets::source(msg, places, listed), start, length, out, at),
        Body::Latin1 {
            listed,
            start,
            length,
        } => put_text(octets::source(msg, places, listed), start, length, out, at),
        Body::Digits { number } => put_digits(out, at, number),
        Body::Bits {
            bits,
            start,
            length,
        } => put_bits(msg, bits, start, length, out, at),
    }
}

// How many bytes a layout has.
pub fn layout_length(msg: &[u8], places: &[u8], layout: Layout) -> usize
    requires { LayoutInside msg.now places.now layout }
    ensures { (result ≡ length (layout_bytes msg.now places.now layout)) × (result ≤ 131096) }
{
    let numbers = layout.first.width + layout.second.width + layout.third.width;
    numbers + body_length(msg, places, layout.body)
}

// Writes a layout from `at` on; the offset past it.
pub fn put_layout(msg: &[u8], places: &[u8], layout: Layout, out: &mut [u8], at: usize) -> usize
    requires { LayoutInside msg.now places.now layout × (at + length (layout_bytes msg.now places.now layout) ≤ length out.old) }
    ensures { Put out.old at (layout_bytes msg.now places.now layout) result out.new }
{
    let second = put_number(out, at, layout.first);
    let third = put_number(out, second, layout.second);
    let fourth = put_number(out, third, layout.third);
    put_body(msg, places, layout.body, out, fourth)
}
