// Taking a packet.
#![tactic(auto)]

ghost use Rattle.term_spec.specs.AtomList.{lent_list};
ghost use Rattle.packet_spec.specs.Memory.{cache_of, memory_of};
ghost use Rattle.packet_spec.specs.Promises.{PacketCall};

use cache_entries::ListMut;
use connection::Connection;
use packet_preamble::Preamble;
use packet_spec::{Pending, Taken};
use term_spec::refusals;

// Takes a packet, over all lent memory: the cache, the list for a plain packet, the list for the pending sequence, the record, the gather buffer. Twelve
// parameters and no structs: C lends each slice, and docs/API.md has them so.
pub fn take_packet(
    connection: Connection,
    packet: &[u8],
    cache: &mut [u8],
    cache_lengths: &mut [u16],
    plain_n: &mut u8,
    plain_places: &mut [u8],
    plain_lengths: &mut [u16],
    pending_n: &mut u8,
    pending_places: &mut [u8],
    pending_lengths: &mut [u16],
    pending: Pending,
    gather: &mut [u8],
) -> Taken
    ensures { PacketCall connection.flags packet.now
        (memory_of (cache_of cache.old cache_lengths.old)
        (lent_list plain_n.old plain_places.old plain_lengths.old)
        (lent_list pending_n.old pending_places.old pending_lengths.old)
        pending gather.old)
        result
        (memory_of (cache_of cache.new cache_lengths.new)
        (lent_list plain_n.new plain_places.new plain_lengths.new)
        (lent_list pending_n.new pending_places.new pending_lengths.new)
        result.pending gather.new) }
{
    if !lent_memory::memory_fits(
        cache,
        cache_lengths,
        plain_places,
        plain_lengths,
        pending_places,
        pending_lengths,
        gather,
    ) {
        return packet_spec::refused(refusals::SIZE, pending);
    }
    if !connection::flags_known(connection.flags) {
        return packet_spec::refused(refusals::STATE, pending);
    }
    if pending.gathered > term_spec::sizes::MESSAGE_MOST as u64 {
        return packet_spec::refused(refusals::STATE, pending);
    }
    let utf8 = connection::utf8_agreed(connection.flags);
    match packet_preamble::read_preamble(packet) {
        Err(number) => packet_spec::refused(number, pending),
        Ok(Preamble::Plain) => {
            let mut list = ListMut {
                n: plain_n,
                places: plain_places,
                lengths: plain_lengths,
            };
            let answer = headed_packets::take_plain(utf8, packet, cache, cache_lengths, &mut list);
            Taken { answer, pending }
        }
        Ok(Preamble::Start(ids)) => {
            let mut list = ListMut {
                n: pending_n,
                places: pending_places,
                lengths: pending_lengths,
            };
            headed_packets::take_start(
                utf8,
                packet,
                ids,
                cache,
                cache_lengths,
                &mut list,
                pending,
                gather,
            )
        }
        Ok(Preamble::Continuation(ids)) => {
            fragments::take_continuation(packet, ids, pending, gather)
        }
    }
}
