// Headers of packets: where their references stand, whether they may be taken, and the text of a new one as UTF-8.
#![tactic(auto)]

ghost use Rattle.std.specs.Prelude.{◌≡◌, List, ℕ, ◌+◌, ◌/◌, ◌≤◌, ◌<◌, length, take, drop};
ghost use Rattle.term_spec.specs.Text.{coding_of, check, valid, encodes};
ghost use Rattle.packet_spec.specs.Memory.{CacheSized, held};
ghost use Rattle.packet_spec.specs.Header.{half};
ghost use Rattle.dist_header.specs.Code.{lent_cache, HeaderAt, references_from, HeaderStarts, ReferenceAt, Spells, TextFits, PutsText, held_case, JudgesNew, JudgesCached, ReferenceIs, Ends, HeaderIs};

use packet_spec::{Place, ReferenceIndex};
use term_spec::{Refusal, refusals, sizes};

// How the references before name a place: none does, one does, one fills it new.
#[derive(Clone, Copy, PartialEq, Eq)]
enum Naming {
    Unnamed,
    Named,
    Filled,
}

// The cache as it is read: its places, and their lengths.
#[derive(Clone, Copy)]
pub struct Cache<'a> {
    pub places: &'a [u8],
    pub lengths: &'a [u16],
}

// What stands before the references: their number, the width of lengths, the offset of the first.
#[derive(Clone, Copy)]
pub struct HeaderStart {
    pub n: usize,
    pub width: usize,
    pub first: usize,
}

// A header that may be taken: what stands before its references, and the offset of the payload.
#[derive(Clone, Copy)]
pub struct Header {
    pub start: HeaderStart,
    pub payload: usize,
}

// A reference as it stands in a header: new, with the offset and the length of its text, or cached.
#[derive(Drop)]
pub enum Spelled {
    New {
        place: Place,
        from: usize,
        size: usize,
    },
    Cached {
        place: Place,
    },
}

// Half i of the flag bytes of the header at `at`.
pub fn half_of(packet: &[u8], at: usize, i: ReferenceIndex) -> usize
    requires { at + 1 + i.0 / 2 < length packet.now }
    ensures { (result ≡ half (drop (at + 1) packet.now) i.0) × (result < 16) }
{
    let k = i.0;
    let flags = usize::from(packet[at + 1 + k / 2]);
    if k % 2 == 0 { flags % 16 } else { flags / 16 }
}

// The count, the flags and the width of lengths of the header at `at`; none where it is cut off.
fn header_start(packet: &[u8], at: usize) -> Option<HeaderStart>
    requires { at ≤ length packet.now }
    ensures { HeaderStarts packet.now at result }
{
    if packet.len() <= at {
        return None;
    }
    let n = usize::from(packet[at]);
    if n == 0 {
        return Some(HeaderStart {
            n: 0,
            width: 1,
            first: at + 1,
        });
    }
    let flags = n / 2 + 1;
    if packet.len() - at - 1 < flags {
        return None;
    }
    let spare = half_of(packet, at, ReferenceIndex(n));
    Some(HeaderStart {
        n,
        width: 1 + spare % 2,
        first: at + 1 + flags,
    })
}

// The reference at `at`, with its half and the width of lengths; none where it is cut off. Its place is 256 times the segment plus the internal index.
pub fn read_reference(packet: &[u8], half: usize, width: usize, at: usize) -> Option<Spelled>
    requires { ReferenceAt packet.now half width at }
    ensures { Spells packet.now half width at result }
{
    if packet.len() <= at {
        return None;
    }
    let place = Place(256 * (half % 8) + usize::from(packet[at]));
    if half < 8 {
        return Some(Spelled::Cached { place });
    }
    if packet.len() - at - 1 < width {
        return None;
    }
    let size = octets::number(packet, at + 1, width) as usize;
    let from = at + 1 + width;
    if packet.len() - from < size {
        return None;
    }
    Some(Spelled::New { place, from, size })
}

// The length as UTF-8 of the text, in the coding agreed, from `from` on.
fn stored_length(utf8: bool, packet: &[u8], from: usize, size: usize) -> usize
    requires { (from + size ≤ length packet.now) × (size < 65536) }
    ensures { (cs : List ℕ) → check (coding_of utf8) (take size (drop from packet.now)) ≡ valid cs → result ≡ length (encodes cs) }
{
    if utf8 {
        return size;
    }
    text::utf8_length(packet, from, size)
}

// Writes that text as UTF-8 into `dst` from `at` on; the number of bytes.
pub fn put_text(
    utf8: bool,
    packet: &[u8],
    from: usize,
    size: usize,
    dst: &mut [u8],
    at: usize,
) -> usize
    requires { TextFits (coding_of utf8) packet.now from size at (length dst.old) }
    ensures { PutsText (coding_of utf8) (take size (drop from packet.now)) at dst.old dst.new result }
{
    if utf8 {
        octets::copy(packet, from, dst, at, size);
        return size;
    }
    text::put_latin1(packet, from, size, dst, at)
}

// Whether a place of the cache holds a text: 21 where it is empty, 14 where its bytes or its length are no text's. A number and no enum: the definitions name refusals so.
fn check_place(cache: &Cache, place: Place) -> Result<(), u8>
    requires { (place.0 < 2048) × CacheSized (lent_cache cache.now) }
    ensures { result ≡ held_case (held (lent_cache cache.now) place.0) }
{
    let k = place.0;
    let size = usize::from(cache.lengths[k]);
    if size == packet_spec::sizes::CACHE_EMPTY as usize {
        return Err(refusals::EMPTY_PLACE);
    }
    if sizes::PLACE_BYTES < size {
        return Err(refusals::STATE);
    }
    let from = sizes::PLACE_BYTES * k;
    if text::is_utf8(&cache.places[from..from + size]) {
        Ok(())
    } else {
        Err(refusals::STATE)
    }
}

// Judges new reference i: 22, 5, 23. `naming` says how earlier references name each place.
fn judge_new(
    utf8: bool,
    packet: &[u8],
    i: ReferenceIndex,
    place: Place,
    from: usize,
    size: usize,
    naming: &mut [Naming],
) -> Result<usize, Refusal>
    requires { (place.0 < 2048) × (from + size ≤ length packet.now) × (size < 65536) × (length naming.old ≡ 2048) }
    ensures { JudgesNew (coding_of utf8) packet.now place.0 from size i.0 naming.old naming.new result }
{
    let k = place.0;
    if naming[k] != Naming::Unnamed {
        return Err(Refusal {
            number: refusals::NAMED_AGAIN,
            place: i.0,
        });
    }
    let end = from + size;
    if let Err(bad) = text::check_text(&packet[from..end], utf8) {
        return Err(Refusal {
            number: refusals::TEXT,
            place: from + bad,
        });
    }
    if sizes::PLACE_BYTES < stored_length(utf8, packet, from, size) {
        return Err(Refusal {
            number: refusals::LONG_TEXT,
            place: i.0,
        });
    }
    naming[k] = Naming::Filled;
    Ok(end)
}

// Judges cached reference i, which ends at `end`: 22, 21, 14.
fn judge_cached(
    cache: &Cache,
    i: ReferenceIndex,
    place: Place,
    end: usize,
    naming: &mut [Naming],
) -> Result<usize, Refusal>
    requires { (place.0 < 2048) × CacheSized (lent_cache cache.now) × (length naming.old ≡ 2048) }
    ensures { JudgesCached (held (lent_cache cache.now)) place.0 end i.0 naming.old naming.new result }
{
    let k = place.0;
    if naming[k] == Naming::Filled {
        return Err(Refusal {
            number: refusals::NAMED_AGAIN,
            place: i.0,
        });
    }
    if let Err(number) = check_place(cache, place) {
        return Err(Refusal { number, place: i.0 });
    }
    naming[k] = Naming::Named;
    Ok(end)
}

// Reads and judges reference i at `at`, with its half and the width of lengths.
fn judge_reference(
    utf8: bool,
    packet: &[u8],
    i: ReferenceIndex,
    half: usize,
    width: usize,
    at: usize,
    cache: &Cache,
    naming: &mut [Naming],
) -> Result<usize, Refusal>
    requires { ReferenceAt packet.now half width at × CacheSized (lent_cache cache.now) × (length naming.old ≡ 2048) }
    ensures { ReferenceIs (coding_of utf8) (held (lent_cache cache.now)) packet.now half width at i.0 naming.old naming.new result }
{
    match read_reference(packet, half, width, at) {
        None => Err(Refusal {
            number: refusals::CUT,
            place: i.0,
        }),
        Some(Spelled::New { place, from, size }) => judge_new(
            utf8, packet, i, place, from, size, naming,
        ),
        Some(Spelled::Cached { place }) => judge_cached(cache, i, place, at + 1, naming),
    }
}

// Reads and judges the references of the header at `at`, each in turn; the offset past the last.
fn check_references(
    utf8: bool,
    packet: &[u8],
    at: usize,
    start: HeaderStart,
    cache: &Cache,
) -> Result<usize, Refusal>
    requires { HeaderAt packet.now at start × CacheSized (lent_cache cache.now) }
    ensures { Ends (references_from (coding_of utf8) (held (lent_cache cache.now)) packet.now at start) packet.now result }
{
    let mut naming = [Naming::Unnamed; packet_spec::sizes::CACHE_PLACES];
    let mut next = start.first;
    for i in 0..start.n {
        let half = half_of(packet, at, ReferenceIndex(i));
        next = judge_reference(
            utf8,
            packet,
            ReferenceIndex(i),
            half,
            start.width,
            next,
            cache,
            &mut naming,
        )?;
    }
    Ok(next)
}

// Judges the header at `at`: 2 on the count and flags, then each reference in turn.
pub fn check_header(utf8: bool, packet: &[u8], at: usize, cache: &Cache) -> Result<Header, Refusal>
    requires { (at ≤ length packet.now) × CacheSized (lent_cache cache.now) }
    ensures { HeaderIs (coding_of utf8) (held (lent_cache cache.now)) packet.now at result }
{
    let Some(start) = header_start(packet, at) else {
        return Err(Refusal {
            number: refusals::CUT,
            place: 0,
        });
    };
    let payload = check_references(utf8, packet, at, start, cache)?;
    Ok(Header { start, payload })
}
