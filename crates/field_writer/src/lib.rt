// A term's own bytes, before and after its parts, measured and written: copied where they stand in canonical form, else by their layouts.
#![tactic(auto)]

ghost use Rattle.std.specs.Prelude.{◌≡◌, ◌++◌, ◌+◌, ◌*◌, ◌≤◌, ◌<◌, length};
ghost use Rattle.term_spec.specs.Term.{list};
ghost use Rattle.octets.specs.Parts.{value};
ghost use Rattle.layout.specs.Layout.{Put};
ghost use Rattle.canonical_fields.specs.Shape.{before, after};
ghost use Rattle.canonical_fields.specs.Sound.{before_in, after_in, SoundWord};

use term_spec::{kinds, tags};

// How many bytes an empty list has, and the end of any other list.
const NIL_LENGTH: usize = 1;

// How many bytes a list has before its elements: its tag and their number.
const LIST_HEAD: usize = 5;

// How many bytes a pid with tag 88 has before its node, and after it.
const PID_HEAD: usize = 1;

const PID_TAIL: usize = 12;

// How many bytes a reference with tag 90 has before its node.
const REFERENCE_HEAD: usize = 3;

// How many it has after its node, by its tag's offset.
#[inline]
fn reference_tail(msg: &[u8], at: usize) -> usize
    requires { at + 3 ≤ length msg.now }
    ensures { (result ≡ 4 + 4 * value msg.now 2 (at + 1)) × (result ≤ 262144) }
{
    4 + 4 * octets::big2(msg, at + 1)
}

// How many bytes stand before and after the parts of the term whose row this is, by its content.
fn found_length(msg: &[u8], places: &[u8], lengths: &[u16], word: u64) -> usize
    requires { SoundWord msg.now places.now lengths.now word }
    ensures { (result ≡ length (before_in msg.now places.now lengths.now word) + length (after_in msg.now places.now lengths.now word)) × (result ≤ 262192) }
{
    let own = canonical_fields::content(msg, places, lengths, word);
    let kind = row::kind_in(word);
    let n = row::parts_in(word);
    let first = canonical_fields::lead(msg, places, kind, own, n);
    let last = canonical_fields::trail(msg, places, kind, own, n);
    layout::layout_length(msg, places, first) + layout::layout_length(msg, places, last)
}

// How many bytes stand before and after the elements of a list of n that is written with them.
fn list_length(n: usize) -> usize
    ensures { (result ≡ length (before list n) + length (after list n)) × (result ≤ 6) }
{
    if n == 0 {
        NIL_LENGTH
    } else {
        LIST_HEAD + NIL_LENGTH
    }
}

// Writes those before them from `at` on; the offset past them.
fn put_list_start(n: usize, out: &mut [u8], at: usize) -> usize
    requires { (n < 8192) × (at + length (before list n) ≤ length out.old) }
    ensures { Put out.old at (before list n) result out.new }
{
    if n == 0 {
        out[at] = tags::NIL_EXT;
        return at + NIL_LENGTH;
    }
    out[at] = tags::LIST_EXT;
    octets::put4(out, at + 1, n);
    at + LIST_HEAD
}

// Writes those after them from `at` on; the offset past them.
fn put_list_end(n: usize, out: &mut [u8], at: usize) -> usize
    requires { at + length (after list n) ≤ length out.old }
    ensures { Put out.old at (after list n) result out.new }
{
    if n == 0 {
        return at;
    }
    out[at] = tags::NIL_EXT;
    at + NIL_LENGTH
}

// How many bytes stand before and after the parts of the term whose row this is.
pub fn own_length(msg: &[u8], places: &[u8], lengths: &[u16], word: u64) -> usize
    requires { SoundWord msg.now places.now lengths.now word }
    ensures { (result ≡ length (before_in msg.now places.now lengths.now word) + length (after_in msg.now places.now lengths.now word)) × (result ≤ 262192) }
{
    if let Some(n) = already_canonical::as_it_stands(msg, word) {
        return n;
    }
    let kind = row::kind_in(word);
    if kind == kinds::LIST {
        return list_length(row::parts_in(word));
    }
    let tag = row::offset_in(word);
    if already_canonical::pid_node(msg, kind, tag).is_some() {
        return PID_HEAD + PID_TAIL;
    }
    if already_canonical::reference_node(msg, kind, tag).is_some() {
        return REFERENCE_HEAD + reference_tail(msg, tag);
    }
    found_length(msg, places, lengths, word)
}

// Writes the bytes before its parts, by its content, from `at` on; the offset past them.
fn put_lead(
    msg: &[u8],
    places: &[u8],
    lengths: &[u16],
    word: u64,
    out: &mut [u8],
    at: usize,
) -> usize
    requires { SoundWord msg.now places.now lengths.now word × (at + length (before_in msg.now places.now lengths.now word) ≤ length out.old) }
    ensures { Put out.old at (before_in msg.now places.now lengths.now word) result out.new }
{
    let own = canonical_fields::content(msg, places, lengths, word);
    let first = canonical_fields::lead(msg, places, row::kind_in(word), own, row::parts_in(word));
    layout::put_layout(msg, places, first, out, at)
}

// Writes the bytes before its parts from `at` on; the offset past them.
pub fn put_before(
    msg: &[u8],
    places: &[u8],
    lengths: &[u16],
    word: u64,
    out: &mut [u8],
    at: usize,
) -> usize
    requires { SoundWord msg.now places.now lengths.now word × (at + length (before_in msg.now places.now lengths.now word) ≤ length out.old) }
    ensures { Put out.old at (before_in msg.now places.now lengths.now word) result out.new }
{
    if let Some(n) = already_canonical::as_it_stands(msg, word) {
        octets::copy(msg, row::offset_in(word), out, at, n);
        return at + n;
    }
    let kind = row::kind_in(word);
    if kind == kinds::LIST {
        return put_list_start(row::parts_in(word), out, at);
    }
    let tag = row::offset_in(word);
    if already_canonical::pid_node(msg, kind, tag).is_some() {
        octets::copy(msg, tag, out, at, PID_HEAD);
        return at + PID_HEAD;
    }
    if already_canonical::reference_node(msg, kind, tag).is_some() {
        octets::copy(msg, tag, out, at, REFERENCE_HEAD);
        return at + REFERENCE_HEAD;
    }
    put_lead(msg, places, lengths, word, out, at)
}

// Writes the bytes after its parts, by its content, from `at` on; the offset past them.
fn put_trail(
    msg: &[u8],
    places: &[u8],
    lengths: &[u16],
    word: u64,
    out: &mut [u8],
    at: usize,
) -> usize
    requires { SoundWord msg.now places.now lengths.now word × (at + length (after_in msg.now places.now lengths.now word) ≤ length out.old) }
    ensures { Put out.old at (after_in msg.now places.now lengths.now word) result out.new }
{
    let own = canonical_fields::content(msg, places, lengths, word);
    let last = canonical_fields::trail(msg, places, row::kind_in(word), own, row::parts_in(word));
    layout::put_layout(msg, places, last, out, at)
}

// Writes the bytes after its parts from `at` on; the offset past them.
pub fn put_after(
    msg: &[u8],
    places: &[u8],
    lengths: &[u16],
    word: u64,
    out: &mut [u8],
    at: usize,
) -> usize
    requires { SoundWord msg.now places.now lengths.now word × (at + length (after_in msg.now places.now lengths.now word) ≤ length out.old) }
    ensures { Put out.old at (after_in msg.now places.now lengths.now word) result out.new }
{
    let kind = row::kind_in(word);
    if kind == kinds::LIST {
        return put_list_end(row::parts_in(word), out, at);
    }
    if !matches!(kind, kinds::PID | kinds::PORT | kinds::REFERENCE) {
        return at;
    }
    let tag = row::offset_in(word);
    if let Some(end) = already_canonical::pid_node(msg, kind, tag) {
        octets::copy(msg, end, out, at, PID_TAIL);
        return at + PID_TAIL;
    }
    if let Some(end) = already_canonical::reference_node(msg, kind, tag) {
        let n = reference_tail(msg, tag);
        octets::copy(msg, end, out, at, n);
        return at + n;
    }
    put_trail(msg, places, lengths, word, out, at)
}

// Writes the term whose row this is, which has no parts, from `at` on; the offset past it.
pub fn put_leaf(
    msg: &[u8],
    places: &[u8],
    lengths: &[u16],
    word: u64,
    out: &mut [u8],
    at: usize,
) -> usize
    requires { SoundWord msg.now places.now lengths.now word × (at + length (before_in msg.now places.now lengths.now word ++ after_in msg.now places.now lengths.now word) ≤ length out.old) }
    ensures { Put out.old at (before_in msg.now places.now lengths.now word ++ after_in msg.now places.now lengths.now word) result out.new }
{
    if let Some(n) = already_canonical::as_it_stands(msg, word) {
        octets::copy(msg, row::offset_in(word), out, at, n);
        return at + n;
    }
    let end = put_lead(msg, places, lengths, word, out, at);
    put_after(msg, places, lengths, word, out, end)
}
