// What an accepted header leaves: the atom list of its references' texts, and the cache with its new entries.
#![tactic(auto)]

ghost use Rattle.std.specs.Prelude.{◌*◌, ◌<◌};
ghost use Rattle.packet_spec.specs.Memory.{cache_of, CacheSized};
ghost use Rattle.term_spec.specs.Text.{coding_of};
ghost use Rattle.dist_header.specs.Code.{lent_cache, TextFits};
ghost use Rattle.cache_entries.specs.Code.{list_lent, SameList, ListSized, HeaderIn, Listable, Lists, ListWritten, StoresText, Enterable, Enters, CacheWritten};

use dist_header::{Cache, HeaderStart, Spelled};
use packet_spec::{Place, ReferenceIndex};
use term_spec::sizes;

// An atom list as it is written: the number of its texts, its places, and their lengths.
#[derive(Drop)]
pub struct ListMut<'a> {
    pub n: &'a mut u8,
    pub places: &'a mut [u8],
    pub lengths: &'a mut [u16],
}

// A text put into a list: its length, and the offset past its reference.
#[derive(Drop)]
struct ListedText {
    size: usize,
    next: usize,
}

// Puts the text of the reference at `at` into place i of a list.
fn list_reference(
    utf8: bool,
    packet: &[u8],
    half: usize,
    width: usize,
    at: usize,
    cache: &Cache,
    i: usize,
    list_places: &mut [u8],
) -> ListedText
    requires { Listable (coding_of utf8) (lent_cache cache.now) packet.now half width at i list_places.old }
    ensures { Lists (coding_of utf8) (lent_cache cache.now) packet.now half width at (32 * i) list_places.old list_places.new result }
{
    match dist_header::read_reference(packet, half, width, at).unwrap() {
        Spelled::New { place, from, size } => {
            let to = sizes::PLACE_BYTES * i;
            let stored = dist_header::put_text(utf8, packet, from, size, list_places, to);
            ListedText {
                size: stored,
                next: from + size,
            }
        }
        Spelled::Cached { place } => {
            let k = place.0;
            let size = usize::from(cache.lengths[k]);
            octets::copy(
                cache.places,
                sizes::PLACE_BYTES * k,
                list_places,
                sizes::PLACE_BYTES * i,
                size,
            );
            ListedText { size, next: at + 1 }
        }
    }
}

// Writes the list of the texts of the references of the header at `at`.
pub fn write_list(
    utf8: bool,
    packet: &[u8],
    at: usize,
    start: HeaderStart,
    cache: &Cache,
    list: &mut ListMut,
)
    requires { HeaderIn (coding_of utf8) (lent_cache cache.now) packet.now at start × ListSized (list_lent list.old) }
    ensures written { ListWritten (coding_of utf8) (lent_cache cache.now) packet.now at start (list_lent list.new) }
    ensures same { SameList list.old list.new }
{
    list.places.fill(0);
    list.lengths.fill(0);
    let mut next = start.first;
    for i in 0..start.n {
        let half = dist_header::half_of(packet, at, ReferenceIndex(i));
        let stored = list_reference(utf8, packet, half, start.width, next, cache, i, list.places);
        list.lengths[i] = stored.size as u16;
        next = stored.next;
    }
    *list.n = start.n as u8;
}

// Puts a text into a place of the cache, zeros after it, and its length.
fn enter_text(
    utf8: bool,
    packet: &[u8],
    place: Place,
    from: usize,
    size: usize,
    cache: &mut [u8],
    cache_lengths: &mut [u16],
)
    requires { (place.0 < 2048) × CacheSized (cache_of cache.old cache_lengths.old) × TextFits (coding_of utf8) packet.now from size 0 32 }
    ensures { StoresText (coding_of utf8) packet.now from size place.0 (cache_of cache.old cache_lengths.old) (cache_of cache.new cache_lengths.new) }
{
    let k = place.0;
    let to = sizes::PLACE_BYTES * k;
    cache[to..to + sizes::PLACE_BYTES].fill(0);
    let stored = dist_header::put_text(utf8, packet, from, size, cache, to);
    cache_lengths[k] = stored as u16;
}

// Enters the reference at `at` into the cache where it is new; the offset past it.
fn enter_reference(
    utf8: bool,
    packet: &[u8],
    half: usize,
    width: usize,
    at: usize,
    cache: &mut [u8],
    cache_lengths: &mut [u16],
) -> usize
    requires { Enterable (coding_of utf8) (cache_of cache.old cache_lengths.old) packet.now half width at }
    ensures { Enters (coding_of utf8) packet.now half width at (cache_of cache.old cache_lengths.old) (cache_of cache.new cache_lengths.new) result }
{
    match dist_header::read_reference(packet, half, width, at).unwrap() {
        Spelled::New { place, from, size } => {
            enter_text(utf8, packet, place, from, size, cache, cache_lengths);
            from + size
        }
        Spelled::Cached { place } => at + 1,
    }
}

// Enters the new references of the header at `at` into the cache. Two slices and no struct behind a `&mut`: its two fields could not be lent at once, to be read as a `Cache`.
pub fn write_cache(
    utf8: bool,
    packet: &[u8],
    at: usize,
    start: HeaderStart,
    cache: &mut [u8],
    cache_lengths: &mut [u16],
)
    requires { HeaderIn (coding_of utf8) (cache_of cache.old cache_lengths.old) packet.now at start }
    ensures { CacheWritten (coding_of utf8) packet.now at start (cache_of cache.old cache_lengths.old) (cache_of cache.new cache_lengths.new) }
{
    let mut next = start.first;
    for i in 0..start.n {
        let half = dist_header::half_of(packet, at, ReferenceIndex(i));
        next = enter_reference(utf8, packet, half, start.width, next, cache, cache_lengths);
    }
}
