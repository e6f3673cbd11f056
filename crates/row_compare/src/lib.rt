// Two terms' own fields compared, and hashed, over what they say and not over how they are encoded.
#![tactic(auto)]

ghost use Rattle.std.specs.Prelude.{◌≡◌, true, [], ◌∷◌, ◌+◌, ◌≤◌, ◌<◌, leb, length, take, drop, MatchOption};
ghost use Rattle.term_spec.specs.Text.{encodes};
ghost use Rattle.row_compare.specs.Same.{same_list, source, same_part, same_stretch, same_spelling, same_text, same_last, same_bits, same_words, Spelled, NotSpelled, same_contents};
ghost use Rattle.row_compare.specs.Hash.{mix, mix_all, as_utf8, hash_part, hash_ends, words_length, last_bits, hash_contents};

use row_fields::Content;

// Whether n bytes from `at` on are there.
fn inside(s: &[u8], at: usize, n: usize) -> bool
    ensures { (result ≡ leb (at + n) (length s.now)) × (result ≡ true → at + n ≤ length s.now) }
{
    at <= s.len() && n <= s.len() - at
}

// The n bytes from `at` on, where they are there.
fn part(s: &[u8], at: usize, n: usize) -> Option<&[u8]>
    ensures { MatchOption result (length s.now < at + n) (λ bytes. (at + n ≤ length s.now) × (bytes.now ≡ take n (drop at s.now))) }
{
    s.get(at..)?.get(..n)
}

// Whether the n bytes of a from i on are there and are those of b from j on.
#[tactic(auto, unfolding(crate::specs::Same::same_part))]
fn same_part(a: &[u8], i: usize, b: &[u8], j: usize, n: usize) -> bool
    ensures { result ≡ same_part a.now i b.now j n }
{
    if !inside(a, i, n) || !inside(b, j, n) {
        return false;
    }
    octets::same(a, i, b, j, n)
}

#[tactic(auto, unfolding(crate::specs::Same::same_stretch))]
fn same_stretch(a: &[u8], i: usize, n: usize, b: &[u8], j: usize, k: usize) -> bool
    ensures { result ≡ same_stretch a.now i n b.now j k }
{
    n == k && same_part(a, i, b, j, n)
}

// What comes after the character c, in UTF-8, at the start of bytes.
fn after_character(c: usize, bytes: &[u8]) -> Option<&[u8]>
    requires { c < 256 }
    ensures { MatchOption result (NotSpelled c bytes.now) (λ rest. Spelled c bytes.now rest.now) }
{
    if c < 128 {
        if 0 < bytes.len() && usize::from(bytes[0]) == c {
            return Some(&bytes[1..]);
        }
        return None;
    }
    if 1 < bytes.len()
        && usize::from(bytes[0]) == 192 + c / 64
        && usize::from(bytes[1]) == 128 + c % 64
    {
        return Some(&bytes[2..]);
    }
    None
}

// Whether the bytes of a, as characters, are in UTF-8 those of b.
fn spelt(a: &[u8], b: &[u8]) -> bool
    ensures { result ≡ same_list (encodes a.now) b.now }
{
    let mut left = b;
    for c in a {
        let Some(rest) = after_character(usize::from(*c), left) else {
            return false;
        };
        left = rest;
    }
    left.is_empty()
}

#[tactic(auto, unfolding(crate::specs::Same::same_spelling))]
fn same_spelling(a: &[u8], i: usize, n: usize, b: &[u8], j: usize, k: usize) -> bool
    ensures { result ≡ same_spelling a.now i n b.now j k }
{
    match (part(a, i, n), part(b, j, k)) {
        (Some(x), Some(y)) => spelt(x, y),
        _ => false,
    }
}

// Whether two texts, each in Latin-1 or UTF-8, have the same characters.
#[tactic(auto, unfolding(crate::specs::Same::same_text))]
fn same_text(
    a: &[u8],
    i: usize,
    n: usize,
    latin: bool,
    b: &[u8],
    j: usize,
    k: usize,
    latin2: bool,
) -> bool
    ensures { result ≡ same_text a.now i n latin b.now j k latin2 }
{
    match (latin, latin2) {
        (true, false) => same_spelling(a, i, n, b, j, k),
        (false, true) => same_spelling(b, j, k, a, i, n),
        _ => same_stretch(a, i, n, b, j, k),
    }
}

// Whether n bytes from i and from j on are the same, and then the bits that count of one byte more.
#[tactic(auto, unfolding(crate::specs::Same::same_last))]
fn same_last(msg: &[u8], bits: usize, i: usize, j: usize, n: usize) -> bool
    requires { (i + n < length msg.now) × (j + n < length msg.now) }
    ensures { result ≡ same_last msg.now bits i j n }
{
    same_part(msg, i, msg, j, n)
        && octets::high_bits(msg[i + n], bits) == octets::high_bits(msg[j + n], bits)
}

#[tactic(auto, unfolding(crate::specs::Same::same_bits))]
fn same_bits(msg: &[u8], bits: usize, i: usize, n: usize, j: usize, k: usize) -> bool
    ensures { result ≡ same_bits msg.now bits i n j k }
{
    n == k
        && (n == 0 || inside(msg, i, n) && inside(msg, j, n) && same_last(msg, bits, i, j, n - 1))
}

#[tactic(auto, unfolding(crate::specs::Same::same_words))]
fn same_words(msg: &[u8], i: usize, n: usize, j: usize, k: usize) -> bool
    ensures { result ≡ same_words msg.now i n j k }
{
    n == k && n <= msg.len() / 4 && same_part(msg, i, msg, j, 4 * n)
}

// Whether two contents say the same.
#[tactic(auto, unfolding(crate::specs::Same::same_contents))]
pub fn same_content(msg: &[u8], places: &[u8], a: Content, b: Content) -> bool
    ensures { result ≡ same_contents msg.now places.now a b }
{
    match (a, b) {
        (Content::Nothing, Content::Nothing) => true,
        (
            Content::Whole {
                negative: s,
                magnitude: n,
            },
            Content::Whole {
                negative: t,
                magnitude: k,
            },
        ) => s == t && n == k,
        (
            Content::Big {
                negative: s,
                start: i,
                digits: n,
            },
            Content::Big {
                negative: t,
                start: j,
                digits: k,
            },
        ) => s == t && same_stretch(msg, i, n, msg, j, k),
        (Content::Float { bits: x }, Content::Float { bits: y }) => x == y,
        (
            Content::Text {
                latin1: x,
                listed: p,
                start: i,
                length: n,
            },
            Content::Text {
                latin1: y,
                listed: q,
                start: j,
                length: k,
            },
        ) => same_text(
            octets::source(msg, places, p),
            i,
            n,
            x,
            octets::source(msg, places, q),
            j,
            k,
            y,
        ),
        (
            Content::Bytes {
                start: i,
                length: n,
            },
            Content::Bytes {
                start: j,
                length: k,
            },
        ) => { same_stretch(msg, i, n, msg, j, k) }
        (
            Content::Bits {
                bits: x,
                start: i,
                length: n,
            },
            Content::Bits {
                bits: y,
                start: j,
                length: k,
            },
        ) => x == y && same_bits(msg, x, i, n, j, k),
        (
            Content::Pid {
                id: i,
                serial: x,
                creation: c,
            },
            Content::Pid {
                id: j,
                serial: y,
                creation: d,
            },
        ) => i == j && x == y && c == d,
        (Content::Port { id: i, creation: c }, Content::Port { id: j, creation: d }) => {
            i == j && c == d
        }
        (
            Content::Reference {
                creation: c,
                start: i,
                words: n,
            },
            Content::Reference {
                creation: d,
                start: j,
                words: k,
            },
        ) => c == d && same_words(msg, i, n, j, k),
        _ => false,
    }
}

// A hash, and the factor that it is made with, is below 2^32; how factors were chosen is in docs/DECISIONS.md.
const HASH_SIZE: u64 = 4294967296;

// Of more bytes than WHOLE_STRETCH only so many first and so many last ones count in a hash.
const END_OF_STRETCH: usize = 512;

const WHOLE_STRETCH: usize = 2 * END_OF_STRETCH;

// So much of a product is dropped below where the factor is even, so that no keys can be found that have one hash with every factor.
const DROPPED: u64 = 65536;

// A hash after one number more: its high half is added before the factor, its low half after it.
pub fn mix(factor: u64, h: u64, x: u64) -> u64
    requires { (factor < 4294967296) × (h < 4294967296) }
    ensures { (result ≡ mix factor h x) × (result < 4294967296) }
{
    let product = (h + x / HASH_SIZE) % HASH_SIZE * factor;
    if factor % 2 == 1 {
        return (product + x % HASH_SIZE) % HASH_SIZE;
    }
    (product / DROPPED + x % HASH_SIZE) % HASH_SIZE
}

// A hash after two numbers more.
fn mix_two(factor: u64, h: u64, x: u64, y: u64) -> u64
    requires { (factor < 4294967296) × (h < 4294967296) }
    ensures { (result ≡ mix factor (mix factor h x) y) × (result < 4294967296) }
{
    mix(factor, mix(factor, h, x), y)
}

// A hash after the byte c, or after the Latin-1 character c in UTF-8.
fn mix_byte(factor: u64, latin1: bool, h: u64, c: usize) -> u64
    requires { (factor < 4294967296) × (h < 4294967296) × (c < 256) }
    ensures { (result ≡ mix_all factor h (as_utf8 latin1 (c ∷ []))) × (result < 4294967296) }
{
    if latin1 && 128 <= c {
        return mix_two(factor, h, (192 + c / 64) as u64, (128 + c % 64) as u64);
    }
    mix(factor, h, c as u64)
}

// A hash after bytes.
fn mix_bytes(factor: u64, bytes: &[u8], latin1: bool, h: u64) -> u64
    requires { (factor < 4294967296) × (h < 4294967296) }
    ensures { (result ≡ mix_all factor h (as_utf8 latin1 bytes.now)) × (result < 4294967296) }
{
    let mut sum = h;
    for c in bytes {
        sum = mix_byte(factor, latin1, sum, usize::from(*c));
    }
    sum
}

// A hash after the n bytes of s from `at` on.
#[tactic(auto, unfolding(crate::specs::Hash::hash_part))]
fn hash_part(factor: u64, s: &[u8], at: usize, n: usize, latin1: bool, h: u64) -> u64
    requires { (factor < 4294967296) × (h < 4294967296) }
    ensures { (result ≡ hash_part factor s.now at n latin1 h) × (result < 4294967296) }
{
    match part(s, at, n) {
        Some(bytes) => mix_bytes(factor, bytes, latin1, h),
        None => h,
    }
}

// The same of plain bytes: where they are many, after their number and those at both ends.
#[tactic(auto, unfolding(crate::specs::Hash::hash_ends, crate::specs::Hash::mix_ends, crate::specs::Hash::as_utf8))]
fn hash_ends(factor: u64, s: &[u8], at: usize, n: usize, h: u64) -> u64
    requires { (factor < 4294967296) × (h < 4294967296) }
    ensures { (result ≡ hash_ends factor s.now at n h) × (result < 4294967296) }
{
    let Some(bytes) = part(s, at, n) else {
        return h;
    };
    let count = bytes.len();
    if count <= WHOLE_STRETCH {
        return mix_bytes(factor, bytes, false, h);
    }
    let counted = mix(factor, h, count as u64);
    let first = &bytes[0..END_OF_STRETCH];
    let last = &bytes[count - END_OF_STRETCH..];
    mix_bytes(
        factor,
        last,
        false,
        mix_bytes(factor, first, false, counted),
    )
}

// How many bytes n words have that are there; none of more than the message can hold.
#[tactic(auto, unfolding(crate::specs::Hash::words_length))]
fn words_length(msg: &[u8], n: usize) -> usize
    ensures { result ≡ words_length msg.now n }
{
    if n <= msg.len() / 4 { 4 * n } else { 0 }
}

// The bits that count of the last of n bytes, as a hash takes them in. A number and no Option: without a byte it takes in 0.
#[tactic(auto, unfolding(crate::specs::Hash::last_bits))]
fn last_bits(msg: &[u8], bits: usize, at: usize, n: usize) -> u64
    ensures { result ≡ last_bits msg.now bits at n }
{
    if 0 < n && inside(msg, at, n) {
        return octets::high_bits(msg[at + (n - 1)], bits) as u64;
    }
    0
}

// A hash after what a content says: the same for contents that say the same.
#[tactic(auto, unfolding(crate::specs::Hash::hash_contents))]
pub fn hash_content(factor: u64, msg: &[u8], places: &[u8], h: u64, c: Content) -> u64
    requires { (factor < 4294967296) × (h < 4294967296) }
    ensures { (result ≡ hash_contents factor msg.now places.now h c) × (result < 4294967296) }
{
    match c {
        Content::Nothing => mix_two(factor, h, 0, 0),
        Content::Whole {
            negative,
            magnitude,
        } => mix_two(factor, h, magnitude, u64::from(negative)),
        Content::Big {
            negative,
            start,
            digits,
        } => {
            let sum = mix_two(factor, h, u64::from(negative), 0);
            hash_ends(factor, msg, start, digits, sum)
        }
        Content::Float { bits } => mix_two(factor, h, bits, 0),
        Content::Text {
            latin1,
            listed,
            start,
            length,
        } => {
            let sum = mix_two(factor, h, 0, 0);
            hash_part(
                factor,
                octets::source(msg, places, listed),
                start,
                length,
                latin1,
                sum,
            )
        }
        Content::Bytes { start, length } => {
            let sum = mix_two(factor, h, 0, 0);
            hash_ends(factor, msg, start, length, sum)
        }
        Content::Bits {
            bits,
            start,
            length,
        } => {
            let sum = mix_two(factor, h, bits as u64, 0);
            let whole = hash_ends(factor, msg, start, length.saturating_sub(1), sum);
            mix(factor, whole, last_bits(msg, bits, start, length))
        }
        Content::Pid {
            id,
            serial,
            creation,
        } => mix(factor, mix_two(factor, h, id, serial), creation),
        Content::Port { id, creation } => mix_two(factor, h, id, creation),
        Content::Reference {
            creation,
            start,
            words,
        } => {
            let sum = mix_two(factor, h, creation, 0);
            hash_ends(factor, msg, start, words_length(msg, words), sum)
        }
    }
}
