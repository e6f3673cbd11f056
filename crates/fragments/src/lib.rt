// Fragments: what one answers and leaves in the record, and a later fragment of the pending sequence.
#![tactic(auto)]

ghost use Rattle.std.specs.Prelude.{◌≡◌, ◌≤◌, ◌<◌, length};
ghost use Rattle.fragments.specs.Code.{after_fragment, TakesContinuation};

use packet_spec::{Ids, NONE_PENDING, PacketOutcome, Pending, Taken};
use term_spec::refusals;

// What a fragment with this id answers with so many bytes gathered, and the record after it.
pub fn after_fragment(ids: Ids, gathered: u64) -> Taken
    requires { 0 < ids.fragment }
    ensures { result ≡ after_fragment ids.sequence ids.fragment gathered }
{
    if ids.fragment == 1 {
        return Taken {
            answer: Ok(PacketOutcome::Complete { gathered }),
            pending: NONE_PENDING,
        };
    }
    let due = ids.fragment - 1;
    Taken {
        answer: Ok(PacketOutcome::Pending { due, gathered }),
        pending: Pending {
            sequence: ids.sequence,
            due,
            gathered,
        },
    }
}

// Takes a later fragment: 25, 24 for the wrong one, 12; then the gather buffer, the record.
pub fn take_continuation(packet: &[u8], ids: Ids, pending: Pending, gather: &mut [u8]) -> Taken
    requires { (18 ≤ length packet.now) × (length gather.old ≡ 65536) × (0 < ids.fragment) × (pending.gathered ≤ 65536) }
    ensures { TakesContinuation packet.now ids.sequence ids.fragment pending gather.old result gather.new }
{
    if pending.due == 0 || ids.sequence != pending.sequence {
        return packet_spec::refused(refusals::SEQUENCE, pending);
    }
    if ids.fragment != pending.due {
        return packet_spec::refused(refusals::FRAGMENT, pending);
    }
    let from = packet_spec::sizes::FRAGMENT_PREAMBLE;
    let size = packet.len() - from;
    let before = pending.gathered as usize;
    if term_spec::sizes::MESSAGE_MOST - before < size {
        return packet_spec::refused(refusals::LONG, pending);
    }
    octets::copy(packet, from, gather, before, size);
    let gathered = before + size;
    after_fragment(ids, gathered as u64)
}
