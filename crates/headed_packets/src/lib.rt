// Packets with a header: a plain packet, and the first fragment of a sequence.
#![tactic(auto)]

ghost use Rattle.std.specs.Prelude.{◌≤◌, ◌<◌, ◌≡◌, length};
ghost use Rattle.term_spec.specs.Text.{coding_of};
ghost use Rattle.packet_spec.specs.Memory.{cache_of, CacheSized};
ghost use Rattle.cache_entries.specs.Code.{list_lent, SameList, ListSized};
ghost use Rattle.headed_packets.specs.Code.{Heads, TakesPlain, TakesStart};

use cache_entries::ListMut;
use dist_header::Cache;
use packet_spec::{Ids, PacketAnswer, PacketOutcome, Pending, Taken, sizes};
use term_spec::{Refusal, refusals};

// Where the payload of a packet stands.
#[derive(Clone, Copy)]
struct Payload {
    offset: usize,
    size: usize,
}

// Takes the header at `at`: judges it and the payload's length, then writes the list and the cache. The cache is two slices, so that both can be lent as a `Cache`.
fn take_header(
    utf8: bool,
    packet: &[u8],
    at: usize,
    cache: &mut [u8],
    cache_lengths: &mut [u16],
    list: &mut ListMut,
) -> Result<Payload, Refusal>
    requires { (at ≤ length packet.now) × CacheSized (cache_of cache.old cache_lengths.old) × ListSized (list_lent list.old) }
    ensures heads { Heads (coding_of utf8) packet.now at
        (cache_of cache.old cache_lengths.old)
        (list_lent list.old)
        result
        (cache_of cache.new cache_lengths.new)
        (list_lent list.new) }
    ensures same { SameList list.old list.new }
{
    let shared = Cache {
        places: cache,
        lengths: cache_lengths,
    };
    let header = dist_header::check_header(utf8, packet, at, &shared)?;
    let size = packet.len() - header.payload;
    if term_spec::sizes::MESSAGE_MOST < size {
        return Err(Refusal {
            number: refusals::LONG,
            place: 0,
        });
    }
    cache_entries::write_list(utf8, packet, at, header.start, &shared, list);
    cache_entries::write_cache(utf8, packet, at, header.start, cache, cache_lengths);
    Ok(Payload {
        offset: header.payload,
        size,
    })
}

// Takes a plain packet: the list for it, the cache.
pub fn take_plain(
    utf8: bool,
    packet: &[u8],
    cache: &mut [u8],
    cache_lengths: &mut [u16],
    list: &mut ListMut,
) -> PacketAnswer
    requires { (2 ≤ length packet.now) × CacheSized (cache_of cache.old cache_lengths.old) × ListSized (list_lent list.old) }
    ensures takes { TakesPlain (coding_of utf8) packet.now
        (cache_of cache.old cache_lengths.old)
        (list_lent list.old)
        result
        (cache_of cache.new cache_lengths.new)
        (list_lent list.new) }
    ensures same { SameList list.old list.new }
{
    let payload = take_header(
        utf8,
        packet,
        sizes::PLAIN_PREAMBLE,
        cache,
        cache_lengths,
        list,
    )?;
    Ok(PacketOutcome::Plain {
        offset: payload.offset,
        length: payload.size,
    })
}

// Takes the first fragment of a sequence: 26, the header, 12; then the list for the sequence, the cache, the gather buffer, the record.
pub fn take_start(
    utf8: bool,
    packet: &[u8],
    ids: Ids,
    cache: &mut [u8],
    cache_lengths: &mut [u16],
    list: &mut ListMut,
    pending: Pending,
    gather: &mut [u8],
) -> Taken
    requires { (18 ≤ length packet.now) × CacheSized (cache_of cache.old cache_lengths.old) × ListSized (list_lent list.old)
        × (length gather.old ≡ 65536) × (0 < ids.fragment) }
    ensures takes { TakesStart (coding_of utf8) packet.now ids.sequence ids.fragment
        (cache_of cache.old cache_lengths.old)
        (list_lent list.old)
        pending gather.old result
        (cache_of cache.new cache_lengths.new)
        (list_lent list.new)
        gather.new }
    ensures same { SameList list.old list.new }
{
    if pending.due != 0 {
        return packet_spec::refused(refusals::PENDING, pending);
    }
    match take_header(
        utf8,
        packet,
        sizes::FRAGMENT_PREAMBLE,
        cache,
        cache_lengths,
        list,
    ) {
        Err(refusal) => Taken {
            answer: Err(refusal),
            pending,
        },
        Ok(Payload { offset, size }) => {
            octets::copy(packet, offset, gather, 0, size);
            fragments::after_fragment(ids, size as u64)
        }
    }
}
