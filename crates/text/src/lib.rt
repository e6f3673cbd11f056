// Texts: whether bytes are a text in UTF-8 or Latin-1, and Latin-1 as UTF-8.
#![tactic(auto)]

ghost use Rattle.std.specs.Prelude.{◌≡◌, true, false, List, [], ◌∷◌, ◌+◌, ◌*◌, ◌≤◌, ◌<◌, length, take, drop, Ok, Err, IfErr, MatchResult};
ghost use Rattle.std.proofs.lemmas.List.Edits.{sets};
ghost use Rattle.term_spec.specs.Text.{holds, lines, first, utf_8, latin_1, coding_of, check, encode, encodes};
ghost use Rattle.term_spec.specs.Text as texts;
ghost use Rattle.text.specs.Shown.{shown, is_valid};
ghost use Rattle.text.specs.Characters.{range, after, due, byte_in, Completes, CharacterAt, Ascii};

use term_spec::sizes;

// The highest bits of 8 bytes: an ASCII character has none.
const HIGHEST_BITS: u64 = 0x8080808080808080;

// The bytes from the first number to the second, both within.
#[derive(Clone, Copy)]
struct Range(u8, u8);

// UTF8-tail = %x80-BF
const UTF8_TAIL: Range = Range(0x80, 0xBF);

// The rule that a character's first byte is in, UTF8-1 to UTF8-4, with the ranges of the bytes after it.
#[derive(Clone, Copy)]
enum Rule {
    One,
    Two(Range),
    Three(Range, Range),
    Four(Range, Range, Range),
}

// Whether `b` is in the range.
#[tactic(auto, unfolding(term_spec::specs::Text::holds, crate::specs::Characters::range))]
fn within(b: u8, r: Range) -> bool
    ensures { result ≡ holds (range r) b }
{
    r.0 <= b && b <= r.1
}

// The rule that `b` begins a character by, if any. RFC 3629, section 4, rule by rule: UTF8-char = UTF8-1 / UTF8-2 / UTF8-3 / UTF8-4
fn rule_of(b: u8) -> Option<Rule>
    ensures { after result ≡ due (first b lines) }
{
    // Tests in turn and no match: a match on ranges becomes a jump table, measured slower (docs/DECISIONS.md).

    // UTF8-1 = %x00-7F
    if within(b, Range(0x00, 0x7F)) {
        return Some(Rule::One);
    }
    // UTF8-2 = %xC2-DF UTF8-tail
    if within(b, Range(0xC2, 0xDF)) {
        return Some(Rule::Two(UTF8_TAIL));
    }
    // UTF8-3 = %xE0 %xA0-BF UTF8-tail
    if within(b, Range(0xE0, 0xE0)) {
        return Some(Rule::Three(Range(0xA0, 0xBF), UTF8_TAIL));
    }
    // UTF8-3 / %xE1-EC 2( UTF8-tail )
    if within(b, Range(0xE1, 0xEC)) {
        return Some(Rule::Three(UTF8_TAIL, UTF8_TAIL));
    }
    // UTF8-3 / %xED %x80-9F UTF8-tail
    if within(b, Range(0xED, 0xED)) {
        return Some(Rule::Three(Range(0x80, 0x9F), UTF8_TAIL));
    }
    // UTF8-3 / %xEE-EF 2( UTF8-tail )
    if within(b, Range(0xEE, 0xEF)) {
        return Some(Rule::Three(UTF8_TAIL, UTF8_TAIL));
    }
    // UTF8-4 = %xF0 %x90-BF 2( UTF8-tail )
    if within(b, Range(0xF0, 0xF0)) {
        return Some(Rule::Four(Range(0x90, 0xBF), UTF8_TAIL, UTF8_TAIL));
    }
    // UTF8-4 / %xF1-F3 3( UTF8-tail )
    if within(b, Range(0xF1, 0xF3)) {
        return Some(Rule::Four(UTF8_TAIL, UTF8_TAIL, UTF8_TAIL));
    }
    // UTF8-4 / %xF4 %x80-8F 2( UTF8-tail )
    if within(b, Range(0xF4, 0xF4)) {
        return Some(Rule::Four(Range(0x80, 0x8F), UTF8_TAIL, UTF8_TAIL));
    }
    None
}

// Whether the byte at `at`, due in the range, of the character at `lead` is there, or the offset at which the text fails: a character that the text's end cuts off fails at its first byte.
fn continued(s: &[u8], lead: usize, at: usize, r: Range) -> Result<(), usize>
    ensures { MatchResult result (λ _. byte_in s.now at (range r) ≡ true) (λ k. (rs : List texts.Range) → Completes s.now lead at (range r ∷ rs) (Err k)) }
{
    if s.len() <= at {
        return Err(lead);
    }
    if within(s[at], r) { Ok(()) } else { Err(at) }
}

// The offset past the character at `at`, or the offset at which it fails. It is counted from `at`, and not from what `continued` answers: else it waits for every byte.
fn character_at(s: &[u8], at: usize) -> Result<usize, usize>
    requires { at < length s.now }
    ensures { CharacterAt s.now at result }
{
    match rule_of(s[at]) {
        Some(Rule::One) => Ok(at + 1),
        Some(Rule::Two(a)) => {
            continued(s, at, at + 1, a)?;
            Ok(at + 2)
        }
        Some(Rule::Three(a, b)) => {
            continued(s, at, at + 1, a)?;
            continued(s, at, at + 2, b)?;
            Ok(at + 3)
        }
        Some(Rule::Four(a, b, c)) => {
            continued(s, at, at + 1, a)?;
            continued(s, at, at + 2, b)?;
            continued(s, at, at + 3, c)?;
            Ok(at + 4)
        }
        None => Err(at),
    }
}

// Whether 8 bytes are ASCII characters. They are one number, the first byte the lowest, which is loaded at once.
fn ascii8(s: &[u8]) -> bool
    requires { length s.now ≡ 8 }
    ensures { result ≡ true → Ascii s.now 0 8 }
{
    let mut word = 0u64;
    for b in s.iter().rev() {
        word = word * 256 + u64::from(*b);
    }
    word & HIGHEST_BITS == 0
}

// The number of ASCII characters that `s` begins with, counted eight by eight; at most 255.
fn ascii_start(s: &[u8]) -> usize
    ensures { (result ≤ 255) × Ascii s.now 0 result }
{
    let mut n = 0;
    for eight in s.chunks_exact(8).take(sizes::CHARACTERS_MOST / 8) {
        if !ascii8(eight) {
            return n;
        }
        n += 8;
    }
    n
}

// How far `s` goes as a text of at most 255 characters in UTF-8: to the offset at which it fails, else to its end. A number and no Result: a Result's case would be set in the loop for each character (docs/DECISIONS.md).
fn utf8_reach(s: &[u8]) -> usize
    ensures { (result < length s.now → Err result ≡ shown (check utf_8 s.now)) × (length s.now ≤ result → Ok tt ≡ shown (check utf_8 s.now)) }
{
    let mut at = ascii_start(s);
    let mut count = at;
    // A while and no for: how far the next character reaches is known only when it has been read.
    while at < s.len() {
        if count == sizes::CHARACTERS_MOST {
            return at;
        }
        match character_at(s, at) {
            Ok(next) => {
                at = next;
            }
            Err(place) => {
                return place;
            }
        }
        count += 1;
    }
    s.len()
}

// Whether `s` is a text of at most 255 characters in UTF-8, or the offset at which it fails.
fn check_utf8(s: &[u8]) -> Result<(), usize>
    ensures { result ≡ shown (check utf_8 s.now) }
{
    let at = utf8_reach(s);
    if at < s.len() { Err(at) } else { Ok(()) }
}

// Whether `s` is a text of at most 255 characters in Latin-1, or the offset at which it fails.
#[tactic(auto, unfolding(term_spec::specs::Text::check, crate::specs::Shown::shown))]
fn check_latin1(s: &[u8]) -> Result<(), usize>
    ensures { result ≡ shown (check latin_1 s.now) }
{
    if sizes::CHARACTERS_MOST < s.len() {
        return Err(sizes::CHARACTERS_MOST);
    }
    Ok(())
}

// Whether `s` is a text of at most 255 characters, in UTF-8 or else in Latin-1, or the offset at which it fails.
pub fn check_text(s: &[u8], utf8: bool) -> Result<(), usize>
    ensures { (result ≡ shown (check (coding_of utf8) s.now)) × IfErr result (λ at. at < length s.now) }
{
    if utf8 { check_utf8(s) } else { check_latin1(s) }
}

// Whether `s` is a text of at most 255 characters in UTF-8.
#[tactic(auto, using(crate::proofs::Valid::shown_tested))]
pub fn is_utf8(s: &[u8]) -> bool
    ensures { result ≡ is_valid (check utf_8 s.now) }
{
    check_utf8(s).is_ok()
}

// The number of bytes that a Latin-1 character has in UTF-8.
#[tactic(auto, using(crate::proofs::Latin1::length_low, crate::proofs::Latin1::length_high))]
fn width(b: u8) -> usize
    ensures { (result ≡ length (encode b)) × (result ≤ 2) }
{
    if b < 0x80 { 1 } else { 2 }
}

// The number of bytes that the n Latin-1 characters from `at` on have in UTF-8.
pub fn utf8_length(s: &[u8], at: usize, n: usize) -> usize
    requires { (at + n ≤ length s.now) × (n ≤ 65536) }
    ensures { (result ≡ length (encodes (take n (drop at s.now)))) × (result ≤ 2 * n) }
{
    let mut count = 0;
    for b in &s[at..at + n] {
        count += width(*b);
    }
    count
}

// Writes a Latin-1 character in UTF-8 from `at` on; the offset past it.
#[tactic(auto, using(crate::proofs::Latin1::length_low, crate::proofs::Latin1::length_high, crate::proofs::Latin1::sets_low, crate::proofs::Latin1::sets_high))]
fn put_character(b: u8, dst: &mut [u8], at: usize) -> usize
    requires { at + length (encode b) ≤ length dst.old }
    ensures { (result ≡ at + length (encode b)) × (dst.new ≡ sets dst.old at (encode b)) }
{
    if b < 0x80 {
        dst[at] = b;
        return at + 1;
    }
    dst[at] = 0xC0 + b / 64;
    dst[at + 1] = 0x80 + b % 64;
    at + 2
}

// Writes the n Latin-1 characters of `src` from `a` on in UTF-8 into `dst` from `b` on; the number of bytes.
pub fn put_latin1(src: &[u8], a: usize, n: usize, dst: &mut [u8], b: usize) -> usize
    requires { (a + n ≤ length src.now) × (n ≤ 65536) × (b + length (encodes (take n (drop a src.now))) ≤ length dst.old) }
    ensures { (result ≡ length (encodes (take n (drop a src.now)))) × (dst.new ≡ sets dst.old b (encodes (take n (drop a src.now)))) }
{
    let mut end = b;
    for c in &src[a..a + n] {
        end = put_character(*c, dst, end);
    }
    end - b
}
