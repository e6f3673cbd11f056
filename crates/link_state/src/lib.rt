// The state that a link keeps between packets: dropping its pending sequence, and a reset of all of it.
#![tactic(auto)]

ghost use Rattle.packet_spec.specs.Memory.{cache_of};
ghost use Rattle.packet_spec.specs.Promises.{DropCall, ResetCall};

use connection::Connection;
use packet_spec::{NONE_PENDING, Pending, Settled};
use term_spec::refusals;

// Drops the pending sequence: 14 for an unknown flag, 14 on the record, 25.
pub fn drop_sequence(connection: Connection, pending: Pending) -> Settled
    ensures { DropCall connection.flags pending result }
{
    if !connection::flags_known(connection.flags) {
        return packet_spec::refused(refusals::STATE, pending);
    }
    if pending.gathered > term_spec::sizes::MESSAGE_MOST as u64 {
        return packet_spec::refused(refusals::STATE, pending);
    }
    if pending.due == 0 {
        return packet_spec::refused(refusals::SEQUENCE, pending);
    }
    Settled {
        answer: Ok(()),
        pending: NONE_PENDING,
    }
}

// Empties the cache and zeroes the record: 13. Two slices and no struct: C lends each, and docs/API.md has them so.
pub fn reset(cache: &mut [u8], cache_lengths: &mut [u16], pending: Pending) -> Settled
    ensures { ResetCall (cache_of cache.old cache_lengths.old) pending result
        (cache_of cache.new cache_lengths.new) }
{
    if !lent_memory::cache_fits(cache, cache_lengths) {
        return packet_spec::refused(refusals::SIZE, pending);
    }
    cache.fill(0);
    cache_lengths.fill(packet_spec::sizes::CACHE_EMPTY);
    Settled {
        answer: Ok(()),
        pending: NONE_PENDING,
    }
}
