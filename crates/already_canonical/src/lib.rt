// Bytes of the message that are a term's own in canonical form already.
#![tactic(auto)]

ghost use Rattle.std.specs.Prelude.{◌≡◌, List, ℕ, ◌+◌, ◌*◌, ◌≤◌, ◌<◌, IfSome};
ghost use Rattle.term_spec.specs.Rows.{kind_in, offset_in, parts_in};
ghost use Rattle.row_fields.specs.Found.{value, atom_end};
ghost use Rattle.canonical_fields.specs.Sound.{SoundWord};
ghost use Rattle.octets.specs.Parts.{Width};
ghost use Rattle.already_canonical.specs.Stands.{Tagged, Counted, Bodied, Stands, Around};

use term_spec::{kinds, tags};

// n, where the n bytes from `at` on are there and the first is this tag.
#[inline]
fn tagged(msg: &[u8], at: usize, tag: u8, n: usize) -> Option<usize>
    requires { (at < 65539) × (1 ≤ n) × (n ≤ 9) }
    ensures { IfSome result (λ r. Tagged msg.now at tag n r) }
{
    if at + n <= msg.len() && msg[at] == tag {
        Some(n)
    } else {
        None
    }
}

// How many bytes this tag and then the number n in w bytes are, where they stand from `at` on.
#[inline]
fn counted(msg: &[u8], at: usize, tag: u8, w: usize, n: usize) -> Option<usize>
    requires { (at < 65539) × Width w }
    ensures { IfSome result (λ r. Counted msg.now at tag w n r) }
{
    let first = tagged(msg, at, tag, 1 + w)?;
    if octets::number(msg, at + 1, w) == n as u64 {
        Some(first)
    } else {
        None
    }
}

// How many bytes this tag, a length in w bytes and so many bytes are, where they stand from `at` on.
#[inline]
fn bodied(msg: &[u8], at: usize, tag: u8, w: usize) -> Option<usize>
    requires { (at < 65539) × Width w }
    ensures { IfSome result (λ r. Bodied msg.now at tag w r) }
{
    tagged(msg, at, tag, 1)?;
    let end = octets::past_counted(msg, at, w, 0)?;
    Some(end - at)
}

// How many bytes from its tag at `at` on are an integer's own in canonical form: a 97, or a 98 that has to be one.
#[inline]
fn integer_stands(msg: &[u8], at: usize) -> Option<usize>
    requires { at < 65536 }
    ensures { (places lengths : List ℕ) (parts : ℕ) → IfSome result (λ n. Stands msg.now places lengths 1 at parts n) }
{
    if let Some(n) = tagged(msg, at, tags::SMALL_INTEGER_EXT, 2) {
        return Some(n);
    }
    let n = tagged(msg, at, tags::INTEGER_EXT, 5)?;
    if octets::big4(msg, at + 1) < 256 {
        return None;
    }
    Some(n)
}

// The same of a list of n elements: a 106.
#[inline]
fn list_stands(msg: &[u8], at: usize, n: usize) -> Option<usize>
    requires { at < 65536 }
    ensures { IfSome result (λ r. Tagged msg.now at 106 1 r × (n ≡ 0)) }
{
    if n != 0 {
        return None;
    }
    tagged(msg, at, tags::NIL_EXT, 1)
}

// How many bytes of the message from its tag on are the own bytes, in canonical form, of the term whose row this is; none where they may not be.
pub fn as_it_stands(msg: &[u8], word: u64) -> Option<usize>
    ensures { (places lengths : List ℕ) → SoundWord msg.now places lengths word → IfSome result (λ n. Stands msg.now places lengths (kind_in word) (offset_in word) (parts_in word) n) }
{
    let at = row::offset_in(word);
    let n = row::parts_in(word);
    let kind = row::kind_in(word);
    match kind {
        kinds::INTEGER => integer_stands(msg, at),
        kinds::FLOAT => tagged(msg, at, tags::NEW_FLOAT_EXT, 9),
        kinds::ATOM => bodied(msg, at, tags::SMALL_ATOM_UTF8_EXT, 1),
        kinds::TUPLE => counted(msg, at, tags::SMALL_TUPLE_EXT, 1, n),
        kinds::LIST => list_stands(msg, at, n),
        kinds::BINARY => bodied(msg, at, tags::BINARY_EXT, 4),
        kinds::MAP => counted(msg, at, tags::MAP_EXT, 4, n / 2),
        kinds::EXPORT => tagged(msg, at, tags::EXPORT_EXT, 1),
        _ => None,
    }
}

// Where the atom ends whose tag, 119 or 82, is at `at`; none for any other.
#[inline]
fn node_end(msg: &[u8], at: usize) -> Option<usize>
    requires { at < 65539 }
    ensures { IfSome result (λ end. (end ≡ atom_end msg.now at) × (end < 65798)) }
{
    if let Some(n) = tagged(msg, at, tags::ATOM_CACHE_REF, 2) {
        return Some(at + n);
    }
    let n = bodied(msg, at, tags::SMALL_ATOM_UTF8_EXT, 1)?;
    Some(at + n)
}

// Where the node of a pid with tag 88 ends, by its row's kind and offset; none for any other term.
pub fn pid_node(msg: &[u8], kind: usize, at: usize) -> Option<usize>
    requires { at < 65536 }
    ensures { (places lengths : List ℕ) (parts : ℕ) → IfSome result (λ end. Around msg.now places lengths kind at parts 1 end 12) }
{
    if kind != kinds::PID {
        return None;
    }
    tagged(msg, at, tags::NEW_PID_EXT, 1)?;
    let end = node_end(msg, at + 1)?;
    if msg.len() < end + 12 {
        return None;
    }
    Some(end)
}

// The same of a reference with tag 90.
pub fn reference_node(msg: &[u8], kind: usize, at: usize) -> Option<usize>
    requires { at < 65536 }
    ensures { (places lengths : List ℕ) (parts : ℕ) → IfSome result (λ end. Around msg.now places lengths kind at parts 3 end (4 + 4 * value msg.now 2 (at + 1))) }
{
    if kind != kinds::REFERENCE {
        return None;
    }
    tagged(msg, at, tags::NEWER_REFERENCE_EXT, 3)?;
    let end = node_end(msg, at + 3)?;
    if msg.len() < end + 4 + 4 * octets::big2(msg, at + 1) {
        return None;
    }
    Some(end)
}
