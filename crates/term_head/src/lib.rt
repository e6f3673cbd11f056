// A term's tag and its fields: one small function for each layout, and the one that picks among them.
#![tactic(auto)]

ghost use Rattle.std.specs.Prelude.{◌≡◌, true, ◌&&◌, ◌||◌, [], ◌∷◌, ℕ, ◌+◌, ◌*◌, ◌≤◌, ◌<◌, eqb, ltb, ℤ, length, take, drop};
ghost use Rattle.term_spec.specs.Numbers.{big_endian};
ghost use Rattle.term_spec.specs.Text.{coding_of};
ghost use Rattle.term_spec.specs.Term.{integer};
ghost use Rattle.term_spec.specs.Connection.{v4_nc};
ghost use Rattle.term_spec.specs.Answer.{good, after, done, at_offset};
ghost use Rattle.term_spec.specs.Answer as answer;
ghost use Rattle.term_spec.specs.Head.{Given, limits, leaf, tuple_ext, list_ext, map_ext, string_ext, binary_ext, bit_binary_ext, big_ext, new_float_ext, new_reference_ext, atom_ext, atom_cache_ref};
ghost use Rattle.term_spec.specs.Head.{pid_fields, port_fields, reference_fields, old_reference_fields, creation_rule, words_rule, one_of, any, an_atom, characters, term_head};
ghost use Rattle.term_spec.specs.Head as head_spec;
ghost use Rattle.term_spec.specs.Reading.{opening};
ghost use Rattle.term_spec.specs.AtomList.{of_size};
ghost use Rattle.term_head.specs.Quick.{fit, quick_later, quick_word};
ghost use Rattle.octets.specs.Parts.{Width, words_at};
ghost use Rattle.context.specs.Given.{list_in, given_in};
ghost use Rattle.term_head.specs.Code.{Bits, head_of, fields_of, later_of, end_of, later_fields, tag_fields, allowed, wanted_of, empty_at, ElementsAt, Skipped, opening_of};

use context::Context;
use term_spec::{Refusal, kinds, refusals, tags};

// An exponent of all ones, and what a float's bits are divided by to find its 11 bits of exponent.
const EXPONENT_ONES: u64 = 2047;

const EXPONENTS: u64 = 2048;

const FRACTIONS: u64 = 4503599627370496;
// A pid's ID and Serial are below this, and a reference has at most so many words, where newer identifiers were agreed on and it is one.
const NEWER_IDS: usize = 4294967296;

const NEWER_WORDS_MOST: usize = 5;
// The width of a newer identifier's Creation.
const NEWER_WIDTH: usize = 4;
// A Creation of one byte, a pid's ID and Serial, a port's ID and the first word of a reference are each below these.
const CREATIONS: usize = 4;

const PID_IDS: usize = 32768;

const PID_SERIALS: usize = 8192;

const PORT_IDS: usize = 268435456;

const FIRST_WORDS: usize = 262144;
// The most words of a reference.
const WORDS_MOST: usize = 3;
// The bytes of a 108 before its elements.
pub const LIST_HEAD: usize = 5;

// The head of a common term in one word: a kind, the offset past the head, the number of parts, each below its bound here.
// A number and no struct: a struct is returned through memory, a number in a register (docs/DECISIONS.md, common terms).
pub const WORD_KINDS: usize = 16;

pub const WORD_OFFSETS: usize = 131072;

const WORD_COUNTS: usize = 4294967296;
// What the number of parts is multiplied by: WORD_KINDS * WORD_OFFSETS.
pub const WORD_PARTS: usize = 2097152;
// In the kind's place: some elements of a list, some pairs of a map. No kind of a row is 15 or 0.
pub const WORD_ELEMENTS: usize = 15;

pub const WORD_PAIRS: usize = 0;

// Which terms may stand at a place.
#[derive(Clone, Copy)]
pub enum Wanted {
    Any,
    Atom,
    Arity,
}

// What is read after the parts.
#[derive(Clone, Copy)]
pub enum Later {
    Known,
    Pid { width: usize },
    Port { id: usize, width: usize },
    Reference { words: usize, width: usize },
    OldReference,
}

// What the tag and the fields before the first part say is to come: `wanted` wanted parts, then `count` of any kind.
#[derive(Clone, Copy)]
pub enum Head {
    Parts {
        kind: usize,
        wanted: usize,
        count: usize,
        later: Later,
        next: usize,
    },
    Characters {
        count: usize,
        next: usize,
    },
    Elements {
        count: usize,
        next: usize,
    },
    Pairs {
        count: usize,
        next: usize,
    },
}

#[derive(Clone, Copy)]
pub struct Opening {
    pub place: usize,
    pub head: Head,
}

// The bytes end inside what is being read, or before it.
fn cut(place: usize) -> Refusal
    ensures { result ≡ record { number = 2; place = place } }
{
    Refusal {
        number: refusals::CUT,
        place,
    }
}

// A field breaks its rule, or the tag of a part.
fn broken(place: usize) -> Refusal
    ensures { result ≡ record { number = 4; place = place } }
{
    Refusal {
        number: refusals::FIELD,
        place,
    }
}

// The head of a term without parts and later fields.
fn leaf(kind: usize, next: usize) -> Head
    ensures { result ≡ Head.Parts kind 0 0 Later.Known next }
{
    Head::Parts {
        kind,
        wanted: 0,
        count: 0,
        later: Later::Known,
        next,
    }
}

// Tags 97 and 98.
fn integer(msg: &[u8], at: usize, width: usize) -> Result<Head, Refusal>
    requires { at < length msg.now }
    ensures { (value : ℕ → ℤ) (rows : ℕ) → result ≡ head_of (after (answer.number at width (at_offset msg.now (at + 1) rows)) (λ n. done (leaf (integer (value n))))) }
{
    if msg.len() - at - 1 < width {
        return Err(cut(at));
    }
    Ok(leaf(kinds::INTEGER, at + 1 + width))
}

// Tags 110 and 111: a count of digits, a sign, the digits.
fn big(msg: &[u8], at: usize, width: usize) -> Result<Head, Refusal>
    requires { (at < length msg.now) × Width width }
    ensures { (given : Given) (rows : ℕ) → result ≡ fields_of given msg.now at (big_ext width) rows }
{
    let Some(end) = octets::past_counted(msg, at, width, 1) else {
        return Err(cut(at));
    };
    if 1 < octets::big1(msg, at + 1 + width) {
        return Err(broken(at));
    }
    Ok(leaf(kinds::INTEGER, end))
}

// Tag 70: an exponent of all ones is refused.
fn float(msg: &[u8], at: usize) -> Result<Head, Refusal>
    requires { at < length msg.now }
    ensures { (given : Given) (rows : ℕ) → result ≡ fields_of given msg.now at new_float_ext rows }
{
    if msg.len() - at - 1 < 8 {
        return Err(cut(at));
    }
    if octets::big8(msg, at + 1) / FRACTIONS % EXPONENTS == EXPONENT_ONES {
        return Err(broken(at));
    }
    Ok(leaf(kinds::FLOAT, at + 1 + 8))
}

// Tags 104 and 105.
fn tuple(msg: &[u8], at: usize, width: usize) -> Result<Head, Refusal>
    requires { (at < length msg.now) × Width width }
    ensures { (given : Given) (rows : ℕ) → result ≡ fields_of given msg.now at (tuple_ext width) rows }
{
    if msg.len() - at - 1 < width {
        return Err(cut(at));
    }
    Ok(Head::Parts {
        kind: kinds::TUPLE,
        wanted: 0,
        count: octets::number(msg, at + 1, width) as usize,
        later: Later::Known,
        next: at + 1 + width,
    })
}

// Tag 107.
fn string(msg: &[u8], at: usize) -> Result<Head, Refusal>
    requires { at < length msg.now }
    ensures { (given : Given) (rows : ℕ) → result ≡ fields_of given msg.now at string_ext rows }
{
    let Some(end) = octets::past_counted(msg, at, 2, 0) else {
        return Err(cut(at));
    };
    let count = end - at - 3;
    Ok(Head::Characters { count, next: end })
}

// Tag 108.
fn list(msg: &[u8], at: usize) -> Result<Head, Refusal>
    requires { at < length msg.now }
    ensures { (given : Given) (rows : ℕ) → result ≡ fields_of given msg.now at list_ext rows }
{
    if msg.len() - at - 1 < 4 {
        return Err(cut(at));
    }
    Ok(Head::Elements {
        count: octets::big4(msg, at + 1),
        next: at + 1 + 4,
    })
}

// Tag 109.
fn binary(msg: &[u8], at: usize) -> Result<Head, Refusal>
    requires { at < length msg.now }
    ensures { (given : Given) (rows : ℕ) → result ≡ fields_of given msg.now at binary_ext rows }
{
    let Some(end) = octets::past_counted(msg, at, 4, 0) else {
        return Err(cut(at));
    };
    Ok(leaf(kinds::BINARY, end))
}

// The kind of n bytes of which `bits` of the last count: a binary or a bitstring; None where these bits break the rule.
fn bits_kind(n: usize, bits: usize) -> Option<usize>
    ensures { Bits n bits result }
{
    if n == 0 {
        if bits == 0 {
            return Some(kinds::BINARY);
        }
        return None;
    }
    if bits < 1 || 8 < bits {
        return None;
    }
    if bits == 8 {
        return Some(kinds::BINARY);
    }
    Some(kinds::BITSTRING)
}

// Tag 77: a count of bytes, the bits of the last one, the bytes.
fn bitstring(msg: &[u8], at: usize) -> Result<Head, Refusal>
    requires { at < length msg.now }
    ensures { (given : Given) (rows : ℕ) → result ≡ fields_of given msg.now at bit_binary_ext rows }
{
    let Some(end) = octets::past_counted(msg, at, 4, 1) else {
        return Err(cut(at));
    };
    let Some(kind) = bits_kind(end - at - 6, octets::big1(msg, at + 1 + 4)) else {
        return Err(broken(at));
    };
    Ok(leaf(kind, end))
}

// Tag 116.
fn map(msg: &[u8], at: usize) -> Result<Head, Refusal>
    requires { at < length msg.now }
    ensures { (given : Given) (rows : ℕ) → result ≡ fields_of given msg.now at map_ext rows }
{
    if msg.len() - at - 1 < 4 {
        return Err(cut(at));
    }
    Ok(Head::Pairs {
        count: octets::big4(msg, at + 1),
        next: at + 1 + 4,
    })
}

// Whether the wider limits of newer identifiers hold for one with such a Creation.
fn is_newer(c: &Context, width: usize) -> bool
    ensures { result ≡ (v4_nc (c.now.flags) && eqb width 4) }
{
    c.v4_nc() && width == NEWER_WIDTH
}

// The most words of a reference with such a Creation. Three functions and no struct of limits: each caller asks for one.
fn words_most(c: &Context, width: usize) -> usize
    ensures { result ≡ (limits (c.now.flags) width).word_count }
{
    if is_newer(c, width) {
        return NEWER_WORDS_MOST;
    }
    WORDS_MOST
}

// The ID of a pid with such a Creation is below this.
fn pid_ids(c: &Context, width: usize) -> usize
    ensures { (result ≡ (limits (c.now.flags) width).id) × (1 ≤ result) × (result ≤ 4294967296) }
{
    if is_newer(c, width) {
        return NEWER_IDS;
    }
    PID_IDS
}

// Its Serial is below this.
fn pid_serials(c: &Context, width: usize) -> usize
    ensures { (result ≡ (limits (c.now.flags) width).serial) × (1 ≤ result) × (result ≤ 4294967296) }
{
    if is_newer(c, width) {
        return NEWER_IDS;
    }
    PID_SERIALS
}

// Tags 90 and 114: a count of words, from 1 to the most.
fn reference(c: &Context, at: usize, width: usize) -> Result<Head, Refusal>
    requires { at < length c.now.msg.now }
    ensures { (given : Given) → given.flags ≡ c.now.flags → (rows : ℕ) → result ≡ fields_of given c.now.msg.now at (new_reference_ext width) rows }
{
    if c.msg.len() - at - 1 < 2 {
        return Err(cut(at));
    }
    let words = octets::big2(c.msg, at + 1);
    if words < 1 || words_most(c, width) < words {
        return Err(broken(at));
    }
    Ok(Head::Parts {
        kind: kinds::REFERENCE,
        wanted: 1,
        count: 0,
        later: Later::Reference { words, width },
        next: at + 1 + 2,
    })
}

// Tags 100 and 115 (Latin-1), 118 and 119 (UTF-8): a count of bytes, the bytes of a text.
fn atom(msg: &[u8], at: usize, width: usize, utf8: bool) -> Result<Head, Refusal>
    requires { (at < length msg.now) × Width width }
    ensures { (given : Given) (rows : ℕ) → result ≡ fields_of given msg.now at (atom_ext (coding_of utf8) width) rows }
{
    let Some(end) = octets::past_counted(msg, at, width, 0) else {
        return Err(cut(at));
    };
    let from = at + 1 + width;
    match text::check_text(&msg[from..end], utf8) {
        Ok(()) => Ok(leaf(kinds::ATOM, end)),
        Err(k) => Err(Refusal {
            number: refusals::TEXT,
            place: from + k,
        }),
    }
}

// Tag 82: an index of this list, and the text at its place.
fn cached_atom(c: &Context, at: usize) -> Result<Head, Refusal>
    requires { (at < length c.now.msg.now) × (of_size (list_in c.now) ≡ true) }
    ensures { (rows : ℕ) → result ≡ fields_of (given_in c.now) c.now.msg.now at atom_cache_ref rows }
{
    if c.msg.len() - at - 1 < 1 {
        return Err(cut(at));
    }
    let i = octets::big1(c.msg, at + 1);
    if usize::from(c.n) <= i {
        return Err(Refusal {
            number: refusals::INDEX,
            place: at,
        });
    }
    if !atom_list::place_holds_text(c.places, c.lengths, i) {
        return Err(Refusal {
            number: refusals::STATE,
            place: 0,
        });
    }
    Ok(leaf(kinds::ATOM, at + 1 + 1))
}

// Whether the number in `width` bytes is below `limit`.
fn below(msg: &[u8], at: usize, width: usize, limit: usize) -> bool
    requires { (at + width ≤ length msg.now) × (1 ≤ limit) × (limit ≤ 4294967296) }
    ensures { result ≡ ltb (big_endian (take width (drop at msg.now))) limit }
{
    let mut n = 0usize;
    for i in 0..width {
        n = n * 256 + usize::from(msg[at + i]);
        if limit <= n {
            return false;
        }
    }
    true
}

// A Creation of one byte is at most 3.
fn creation_fits(msg: &[u8], at: usize, width: usize) -> bool
    requires { at + width ≤ length msg.now }
    ensures { result ≡ creation_rule width (big_endian (take width (drop at msg.now))) }
{
    width != 1 || below(msg, at, 1, CREATIONS)
}

// A port's ID is under 2^28, but not in 8 bytes.
fn port_id_fits(msg: &[u8], at: usize, width: usize) -> bool
    requires { at + width ≤ length msg.now }
    ensures { result ≡ (eqb width 8 || ltb (big_endian (take width (drop at msg.now))) 268435456) }
{
    width == 8 || below(msg, at, width, PORT_IDS)
}

// With a Creation of one byte, the first word is under 2^18.
fn words_fit(msg: &[u8], at: usize, words: usize, width: usize) -> bool
    requires { at + words * 4 ≤ length msg.now }
    ensures { result ≡ words_rule width (words_at msg.now at words) }
{
    if words == 0 || width != 1 {
        return true;
    }
    below(msg, at, 4, FIRST_WORDS)
}

// ID, Serial, Creation.
fn pid_fields(c: &Context, at: usize, place: usize, width: usize) -> Result<usize, Refusal>
    requires { at ≤ length c.now.msg.now }
    ensures { (rows : ℕ) → result ≡ later_fields (c.now.flags) c.now.msg.now at place (pid_fields width) rows }
{
    let left = c.msg.len() - at;
    if left < 8 || left - 8 < width {
        return Err(cut(place));
    }
    if !below(c.msg, at, 4, pid_ids(c, width))
        || !below(c.msg, at + 4, 4, pid_serials(c, width))
        || !creation_fits(c.msg, at + 4 + 4, width)
    {
        return Err(broken(place));
    }
    Ok(at + 4 + 4 + width)
}

// ID, Creation.
fn port_fields(
    msg: &[u8],
    at: usize,
    place: usize,
    id: usize,
    width: usize,
) -> Result<usize, Refusal>
    requires { at ≤ length msg.now }
    ensures { (flags rows : ℕ) → result ≡ later_fields flags msg.now at place (port_fields id width) rows }
{
    let left = msg.len() - at;
    if left < id || left - id < width {
        return Err(cut(place));
    }
    if !port_id_fits(msg, at, id) || !creation_fits(msg, at + id, width) {
        return Err(broken(place));
    }
    Ok(at + id + width)
}

// Creation, words.
fn reference_fields(
    msg: &[u8],
    at: usize,
    place: usize,
    words: usize,
    width: usize,
) -> Result<usize, Refusal>
    requires { at ≤ length msg.now }
    ensures { (flags rows : ℕ) → result ≡ later_fields flags msg.now at place (reference_fields words width) rows }
{
    let left = msg.len() - at;
    if left < width || (left - width) / 4 < words {
        return Err(cut(place));
    }
    if !creation_fits(msg, at, width) || !words_fit(msg, at + width, words, width) {
        return Err(broken(place));
    }
    Ok(at + width + words * 4)
}

// One word, Creation of one byte.
fn old_reference_fields(msg: &[u8], at: usize, place: usize) -> Result<usize, Refusal>
    requires { at ≤ length msg.now }
    ensures { (flags rows : ℕ) → result ≡ later_fields flags msg.now at place old_reference_fields rows }
{
    if msg.len() - at < 5 {
        return Err(cut(place));
    }
    if !words_fit(msg, at, 1, 1) || !creation_fits(msg, at + 4, 1) {
        return Err(broken(place));
    }
    Ok(at + 4 + 1)
}

// The fields after the parts of the term at `place`: all are there (2) before one is judged (4).
pub fn read_later(c: &Context, at: usize, place: usize, later: Later) -> Result<usize, Refusal>
    requires { at ≤ length c.now.msg.now }
    ensures { (l : head_spec.Later) → later_of l ≡ later → (rows : ℕ) → result ≡ end_of (head_spec.later (c.now.flags) place l (at_offset c.now.msg.now at rows)) }
{
    match later {
        Later::Known => Ok(at),
        Later::Pid { width } => pid_fields(c, at, place, width),
        Later::Port { id, width } => port_fields(c.msg, at, place, id, width),
        Later::Reference { words, width } => reference_fields(c.msg, at, place, words, width),
        Later::OldReference => old_reference_fields(c.msg, at, place),
    }
}

// A head that has no fields.
fn no_fields(at: usize, kind: usize, wanted: usize, later: Later) -> Head
    requires { at < 65536 }
    ensures { result ≡ Head.Parts kind wanted 0 later (at + 1) }
{
    Head::Parts {
        kind,
        wanted,
        count: 0,
        later,
        next: at + 1,
    }
}

// The fields that this tag has: the tag table.
fn by_tag(c: &Context, at: usize, tag: u8) -> Result<Head, Refusal>
    requires { (at < length c.now.msg.now) × (length c.now.msg.now ≤ 65536) × (of_size (list_in c.now) ≡ true) }
    ensures { (rows : ℕ) → result ≡ tag_fields (given_in c.now) c.now.msg.now at tag rows }
{
    match tag {
        tags::SMALL_INTEGER_EXT => integer(c.msg, at, 1),
        tags::INTEGER_EXT => integer(c.msg, at, 4),
        tags::SMALL_BIG_EXT => big(c.msg, at, 1),
        tags::LARGE_BIG_EXT => big(c.msg, at, 4),
        tags::NEW_FLOAT_EXT => float(c.msg, at),
        tags::ATOM_EXT => atom(c.msg, at, 2, false),
        tags::SMALL_ATOM_EXT => atom(c.msg, at, 1, false),
        tags::ATOM_UTF8_EXT => atom(c.msg, at, 2, true),
        tags::SMALL_ATOM_UTF8_EXT => atom(c.msg, at, 1, true),
        tags::ATOM_CACHE_REF => cached_atom(c, at),
        tags::SMALL_TUPLE_EXT => tuple(c.msg, at, 1),
        tags::LARGE_TUPLE_EXT => tuple(c.msg, at, 4),
        tags::NIL_EXT => Ok(Head::Characters {
            count: 0,
            next: at + 1,
        }),
        tags::STRING_EXT => string(c.msg, at),
        tags::LIST_EXT => list(c.msg, at),
        tags::BINARY_EXT => binary(c.msg, at),
        tags::BIT_BINARY_EXT => bitstring(c.msg, at),
        tags::MAP_EXT => map(c.msg, at),
        tags::NEW_PID_EXT => Ok(no_fields(at, kinds::PID, 1, Later::Pid { width: 4 })),
        tags::PID_EXT => Ok(no_fields(at, kinds::PID, 1, Later::Pid { width: 1 })),
        tags::NEW_PORT_EXT => Ok(no_fields(at, kinds::PORT, 1, Later::Port { id: 4, width: 4 })),
        tags::PORT_EXT => Ok(no_fields(at, kinds::PORT, 1, Later::Port { id: 4, width: 1 })),
        tags::V4_PORT_EXT => Ok(no_fields(at, kinds::PORT, 1, Later::Port { id: 8, width: 4 })),
        tags::NEWER_REFERENCE_EXT => reference(c, at, 4),
        tags::NEW_REFERENCE_EXT => reference(c, at, 1),
        tags::REFERENCE_EXT => Ok(no_fields(at, kinds::REFERENCE, 1, Later::OldReference)),
        tags::EXPORT_EXT => Ok(no_fields(at, kinds::EXPORT, 3, Later::Known)),
        _ => Err(Refusal {
            number: refusals::TAG,
            place: at,
        }),
    }
}

// Whether this is an atom's tag.
fn is_atom_tag(tag: u8) -> bool
    ensures { result ≡ one_of tag (82 ∷ 100 ∷ 115 ∷ 118 ∷ 119 ∷ []) }
{
    matches!(
        tag,
        tags::ATOM_CACHE_REF
            | tags::ATOM_EXT
            | tags::SMALL_ATOM_EXT
            | tags::ATOM_UTF8_EXT
            | tags::SMALL_ATOM_UTF8_EXT
    )
}

// Whether a term with this tag may stand where one is so wanted.
fn may_stand(wanted: Wanted, tag: u8) -> bool
    ensures { result ≡ allowed wanted tag }
{
    match wanted {
        Wanted::Any => true,
        Wanted::Atom => is_atom_tag(tag),
        Wanted::Arity => tag == tags::SMALL_INTEGER_EXT,
    }
}

// A term's tag and the fields before its first part.
fn read_head(c: &Context, at: usize, wanted: Wanted) -> Result<Head, Refusal>
    requires { (at ≤ length c.now.msg.now) × (length c.now.msg.now ≤ 65536) × (of_size (list_in c.now) ≡ true) }
    ensures { (rows : ℕ) → result ≡ head_of (term_head (given_in c.now) (wanted_of wanted) (at_offset c.now.msg.now at rows)) }
{
    if c.msg.len() <= at {
        return Err(cut(at));
    }
    let tag = c.msg[at];
    if !may_stand(wanted, tag) {
        return Err(broken(at));
    }
    by_tag(c, at, tag)
}

// Whether a 106 stands here.
pub fn nil_at(msg: &[u8], at: usize) -> bool
    requires { at ≤ length msg.now }
    ensures { result ≡ true → (given : Given) (rows : ℕ) → term_head given any (at_offset msg.now at rows) ≡ good (characters [], at_offset msg.now (at + 1) rows) }
{
    at < msg.len() && msg[at] == tags::NIL_EXT
}

// The number of elements of the 108 that stands here.
pub fn elements_at(msg: &[u8], at: usize) -> Option<usize>
    requires { at ≤ length msg.now }
    ensures { ElementsAt msg.now at result }
{
    if msg.len() - at < LIST_HEAD || msg[at] != tags::LIST_EXT {
        return None;
    }
    Some(octets::big4(msg, at + 1))
}

// Whether a 108 of length 0 stands here.
fn empty_list_at(msg: &[u8], at: usize) -> bool
    requires { at ≤ length msg.now }
    ensures { result ≡ empty_at msg.now at }
{
    match elements_at(msg, at) {
        Some(count) => count == 0,
        None => false,
    }
}

// The offset past all 108s of length 0. A while and no for: how many there are is known only when they have been read.
pub fn skip_empty(msg: &[u8], at: usize) -> usize
    requires { at ≤ length msg.now }
    ensures { Skipped msg.now at result }
{
    let mut place = at;
    while empty_list_at(msg, place) {
        place += LIST_HEAD;
    }
    place
}

// A term's tag and fields, with the tag's offset: what stands in the place of a 108 of length 0 is taken.
pub fn read_opening(c: &Context, at: usize, wanted: Wanted) -> Result<Opening, Refusal>
    requires { (at ≤ length c.now.msg.now) × (length c.now.msg.now ≤ 65536) × (of_size (list_in c.now) ≡ true) }
    ensures { (rows : ℕ) → result ≡ opening_of (opening (given_in c.now) (drop at c.now.msg.now) (wanted_of wanted) (at_offset c.now.msg.now at rows)) }
{
    let place = match wanted {
        Wanted::Any => skip_empty(c.msg, at),
        _ => at,
    };
    let head = read_head(c, place, wanted)?;
    Ok(Opening { place, head })
}

// A kind, the offset past a head and a number of parts in one word; None where they do not fit.
fn fit(kind: usize, next: usize, count: usize) -> Option<usize>
    ensures { result ≡ fit kind next count }
{
    if WORD_KINDS <= kind || WORD_OFFSETS <= next || WORD_COUNTS <= count {
        return None;
    }
    Some(kind + WORD_KINDS * next + WORD_PARTS * count)
}

// A head without wanted parts in one word, if it has no later fields either.
fn word_of_parts(kind: usize, count: usize, later: Later, next: usize) -> Option<usize>
    ensures { result ≡ quick_later later (fit kind next count) }
{
    match later {
        Later::Known => fit(kind, next, count),
        _ => None,
    }
}

// The head of a common term in one word, if it has one.
fn word_of(head: Result<Head, Refusal>) -> Option<usize>
    ensures { result ≡ quick_word head }
{
    let Ok(head) = head else {
        return None;
    };
    match head {
        Head::Parts {
            kind,
            wanted,
            count,
            later,
            next,
        } => {
            if wanted != 0 {
                return None;
            }
            word_of_parts(kind, count, later, next)
        }
        Head::Characters { count, next } => {
            if count != 0 {
                return None;
            }
            fit(kinds::LIST, next, 0)
        }
        Head::Elements { count, next } => {
            if count == 0 {
                return None;
            }
            fit(WORD_ELEMENTS, next, count)
        }
        Head::Pairs { count, next } => {
            if count == 0 {
                return None;
            }
            fit(WORD_PAIRS, next, count)
        }
    }
}

// The commonest terms without parts.
fn leaf_word(msg: &[u8], at: usize, tag: u8) -> Option<usize>
    requires { (at < length msg.now) × (length msg.now ≤ 65536) }
    ensures { (w : ℕ) → result ≡ Some w → (given : Given) (rows : ℕ) → Some w ≡ quick_word (tag_fields given msg.now at tag rows) }
{
    match tag {
        tags::SMALL_INTEGER_EXT => word_of(integer(msg, at, 1)),
        tags::INTEGER_EXT => word_of(integer(msg, at, 4)),
        tags::NEW_FLOAT_EXT => word_of(float(msg, at)),
        tags::SMALL_ATOM_UTF8_EXT => word_of(atom(msg, at, 1, true)),
        tags::BINARY_EXT => word_of(binary(msg, at)),
        tags::NIL_EXT => word_of(Ok(Head::Characters {
            count: 0,
            next: at + 1,
        })),
        tags::BIT_BINARY_EXT => word_of(bitstring(msg, at)),
        tags::SMALL_BIG_EXT => word_of(big(msg, at, 1)),
        _ => None,
    }
}

// The commonest keys and values of a map, without parts.
fn entry_word(msg: &[u8], at: usize, tag: u8) -> Option<usize>
    requires { (at < length msg.now) × (length msg.now ≤ 65536) }
    ensures { (w : ℕ) → result ≡ Some w → (given : Given) (rows : ℕ) → Some w ≡ quick_word (tag_fields given msg.now at tag rows) }
{
    match tag {
        tags::SMALL_ATOM_UTF8_EXT => word_of(atom(msg, at, 1, true)),
        tags::SMALL_INTEGER_EXT => word_of(integer(msg, at, 1)),
        tags::INTEGER_EXT => word_of(integer(msg, at, 4)),
        tags::BINARY_EXT => word_of(binary(msg, at)),
        tags::NEW_FLOAT_EXT => word_of(float(msg, at)),
        _ => None,
    }
}

// Common terms, with parts and without.
fn common_word(c: &Context, at: usize, tag: u8) -> Option<usize>
    requires { (at < length c.now.msg.now) × (length c.now.msg.now ≤ 65536) × (of_size (list_in c.now) ≡ true) }
    ensures { (w : ℕ) → result ≡ Some w → (rows : ℕ) → Some w ≡ quick_word (tag_fields (given_in c.now) c.now.msg.now at tag rows) }
{
    match tag {
        tags::SMALL_TUPLE_EXT => word_of(tuple(c.msg, at, 1)),
        tags::LARGE_TUPLE_EXT => word_of(tuple(c.msg, at, 4)),
        tags::LIST_EXT => word_of(list(c.msg, at)),
        tags::MAP_EXT => word_of(map(c.msg, at)),
        tags::ATOM_CACHE_REF => word_of(cached_atom(c, at)),
        tags::ATOM_EXT => word_of(atom(c.msg, at, 2, false)),
        tags::SMALL_ATOM_EXT => word_of(atom(c.msg, at, 1, false)),
        tags::ATOM_UTF8_EXT => word_of(atom(c.msg, at, 2, true)),
        _ => None,
    }
}

// The head of one of the commonest terms without parts in one word; None of any other, and of one that is not wanted.
pub fn leaf_at(msg: &[u8], at: usize, wanted: Wanted) -> Option<usize>
    requires { (at ≤ length msg.now) × (length msg.now ≤ 65536) }
    ensures { (w : ℕ) → result ≡ Some w → (given : Given) (rows : ℕ) → Some w ≡ quick_word (head_of (term_head given (wanted_of wanted) (at_offset msg.now at rows))) }
{
    if msg.len() <= at {
        return None;
    }
    let tag = msg[at];
    if !may_stand(wanted, tag) {
        return None;
    }
    leaf_word(msg, at, tag)
}

// The head of one of the commonest keys and values of a map, without parts, in one word; None of any other. As `leaf_at`, it has one caller, so that both are inlined.
#[inline(always)]
pub fn entry_at(msg: &[u8], at: usize) -> Option<usize>
    requires { (at ≤ length msg.now) × (length msg.now ≤ 65536) }
    ensures { (w : ℕ) → result ≡ Some w → (given : Given) (rows : ℕ) → Some w ≡ quick_word (head_of (term_head given any (at_offset msg.now at rows))) }
{
    if msg.len() <= at {
        return None;
    }
    entry_word(msg, at, msg[at])
}

// The head of a 119, the commonest node, in one word; None of any other term. It has one caller, too.
pub fn node_at(msg: &[u8], at: usize) -> Option<usize>
    requires { (at ≤ length msg.now) × (length msg.now ≤ 65536) }
    ensures { (w : ℕ) → result ≡ Some w → (given : Given) (rows : ℕ) → Some w ≡ quick_word (head_of (term_head given an_atom (at_offset msg.now at rows))) }
{
    if msg.len() <= at || msg[at] != tags::SMALL_ATOM_UTF8_EXT {
        return None;
    }
    word_of(atom(msg, at, 1, true))
}

// The head of a common term in one word; None of any other, and of one that is not wanted.
pub fn quick_at(c: &Context, at: usize, wanted: Wanted) -> Option<usize>
    requires { (at ≤ length c.now.msg.now) × (length c.now.msg.now ≤ 65536) × (of_size (list_in c.now) ≡ true) }
    ensures { (w : ℕ) → result ≡ Some w → (rows : ℕ) → Some w ≡ quick_word (head_of (term_head (given_in c.now) (wanted_of wanted) (at_offset c.now.msg.now at rows))) }
{
    if c.msg.len() <= at {
        return None;
    }
    let tag = c.msg[at];
    if !may_stand(wanted, tag) {
        return None;
    }
    common_word(c, at, tag)
}
