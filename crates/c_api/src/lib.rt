// The calls for C: thin functions on numbers and slices, replies as structs by value. No rule of the format stands here.
#![tactic(auto)]

ghost use Rattle.std.specs.Prelude.{◌≡◌};
ghost use Rattle.term_spec.specs.Answers.{number_answer, mark_answer};
ghost use Rattle.term_spec.specs.AtomList.{lent_list};
ghost use Rattle.term_spec.specs.Look.{number_in, text_in};
ghost use Rattle.term_spec.specs.Message.{standalone, payload};
ghost use Rattle.queries.specs.Promises.{text_at};
ghost use Rattle.packet_spec.specs.Memory.{cache_of, memory_of};
ghost use Rattle.c_replies.specs.Terms.{flat_number, flat_text, flat_mark};
ghost use Rattle.c_api.specs.Promises.{IsReadReply, IsWriteReply, IsPacketReply, IsDropReply, IsResetReply, IsWordReply};

use c_replies::{
    MarkReply, NumberReply, PacketReply, ReadReply, StateReply, TextReply, WordReply, WriteReply,
};
use connection::Connection;
use packet_spec::{Pending, ReferenceIndex};

// Reads a standalone term into the table.
#[unsafe(no_mangle)]
pub extern "C" fn ik_read_standalone(
    flags: u8,
    msg: &[u8],
    n: u8,
    places: &[u8],
    lengths: &[u16],
    table: &mut [u64],
) -> ReadReply
    ensures { IsReadReply flags standalone (lent_list n places.now lengths.now) msg.now table.old result table.new }
{
    reader::read_standalone(Connection { flags }, msg, n, places, lengths, table).into()
}

// Reads a payload into the table.
#[unsafe(no_mangle)]
pub extern "C" fn ik_read_payload(
    flags: u8,
    msg: &[u8],
    n: u8,
    places: &[u8],
    lengths: &[u16],
    table: &mut [u64],
) -> ReadReply
    ensures { IsReadReply flags payload (lent_list n places.now lengths.now) msg.now table.old result table.new }
{
    reader::read_payload(Connection { flags }, msg, n, places, lengths, table).into()
}

// Writes the canonical form of a standalone term.
#[unsafe(no_mangle)]
pub extern "C" fn ik_write_standalone(
    flags: u8,
    msg: &[u8],
    n: u8,
    places: &[u8],
    lengths: &[u16],
    scratch: &mut [u64],
    output: &mut [u8],
) -> WriteReply
    ensures { IsWriteReply flags standalone (lent_list n places.now lengths.now) msg.now scratch.old output.old result scratch.new output.new }
{
    writer::write_standalone(
        Connection { flags },
        msg,
        n,
        places,
        lengths,
        scratch,
        output,
    )
    .into()
}

// Writes the canonical form of each term of a payload.
#[unsafe(no_mangle)]
pub extern "C" fn ik_write_payload(
    flags: u8,
    msg: &[u8],
    n: u8,
    places: &[u8],
    lengths: &[u16],
    scratch: &mut [u64],
    output: &mut [u8],
) -> WriteReply
    ensures { IsWriteReply flags payload (lent_list n places.now lengths.now) msg.now scratch.old output.old result scratch.new output.new }
{
    writer::write_payload(
        Connection { flags },
        msg,
        n,
        places,
        lengths,
        scratch,
        output,
    )
    .into()
}

// The number of a row of a standalone term.
#[unsafe(no_mangle)]
pub extern "C" fn ik_number_standalone(
    flags: u8,
    msg: &[u8],
    n: u8,
    places: &[u8],
    lengths: &[u16],
    row: usize,
) -> NumberReply
    ensures { result ≡ flat_number (number_answer (number_in flags standalone (lent_list n places.now lengths.now) msg.now row)) }
{
    queries::number_standalone(Connection { flags }, msg, n, places, lengths, row).into()
}

// Where the text stands of the atom whose tag is at this offset of a standalone term.
#[unsafe(no_mangle)]
pub extern "C" fn ik_text_standalone(
    flags: u8,
    msg: &[u8],
    n: u8,
    places: &[u8],
    lengths: &[u16],
    offset: usize,
) -> TextReply
    ensures { result ≡ flat_text (text_at (text_in flags standalone (lent_list n places.now lengths.now) msg.now offset)) }
{
    queries::locate_standalone(Connection { flags }, msg, n, places, lengths, offset).into()
}

// The mark of the atom whose tag is at this offset of a standalone term.
#[unsafe(no_mangle)]
pub extern "C" fn ik_mark_standalone(
    flags: u8,
    msg: &[u8],
    n: u8,
    places: &[u8],
    lengths: &[u16],
    offset: usize,
) -> MarkReply
    ensures { result ≡ flat_mark (mark_answer (text_in flags standalone (lent_list n places.now lengths.now) msg.now offset)) }
{
    queries::mark_standalone(Connection { flags }, msg, n, places, lengths, offset).into()
}

// The number of a row of a payload.
#[unsafe(no_mangle)]
pub extern "C" fn ik_number_payload(
    flags: u8,
    msg: &[u8],
    n: u8,
    places: &[u8],
    lengths: &[u16],
    row: usize,
) -> NumberReply
    ensures { result ≡ flat_number (number_answer (number_in flags payload (lent_list n places.now lengths.now) msg.now row)) }
{
    queries::number_payload(Connection { flags }, msg, n, places, lengths, row).into()
}

// Where the text stands of the atom whose tag is at this offset of a payload.
#[unsafe(no_mangle)]
pub extern "C" fn ik_text_payload(
    flags: u8,
    msg: &[u8],
    n: u8,
    places: &[u8],
    lengths: &[u16],
    offset: usize,
) -> TextReply
    ensures { result ≡ flat_text (text_at (text_in flags payload (lent_list n places.now lengths.now) msg.now offset)) }
{
    queries::locate_payload(Connection { flags }, msg, n, places, lengths, offset).into()
}

// The mark of the atom whose tag is at this offset of a payload.
#[unsafe(no_mangle)]
pub extern "C" fn ik_mark_payload(
    flags: u8,
    msg: &[u8],
    n: u8,
    places: &[u8],
    lengths: &[u16],
    offset: usize,
) -> MarkReply
    ensures { result ≡ flat_mark (mark_answer (text_in flags payload (lent_list n places.now lengths.now) msg.now offset)) }
{
    queries::mark_payload(Connection { flags }, msg, n, places, lengths, offset).into()
}

// The text of reference `index` of a message, by that message's own list.
#[unsafe(no_mangle)]
pub extern "C" fn ik_word(
    flags: u8,
    n: u8,
    places: &[u8],
    lengths: &[u16],
    index: usize,
) -> WordReply
    ensures { IsWordReply flags (lent_list n places.now lengths.now) index result }
{
    word_lookup::locate_word(
        Connection { flags },
        n,
        places,
        lengths,
        ReferenceIndex(index),
    )
    .into()
}

// Drops the pending sequence of the record lent.
#[unsafe(no_mangle)]
pub extern "C" fn ik_drop(flags: u8, pending: &mut Pending) -> StateReply
    ensures { IsDropReply flags pending.old result pending.new }
{
    let settled = link_state::drop_sequence(Connection { flags }, *pending);
    *pending = settled.pending;
    settled.answer.into()
}

// Empties the cache and drops the pending sequence of the record lent, if there is one.
#[unsafe(no_mangle)]
pub extern "C" fn ik_reset(
    cache: &mut [u8],
    cache_lengths: &mut [u16],
    pending: &mut Pending,
) -> StateReply
    ensures { IsResetReply (cache_of cache.old cache_lengths.old) pending.old result (cache_of cache.new cache_lengths.new) pending.new }
{
    let settled = link_state::reset(cache, cache_lengths, *pending);
    *pending = settled.pending;
    settled.answer.into()
}

// Takes a packet, over all lent memory.
#[unsafe(no_mangle)]
pub extern "C" fn ik_packet(
    flags: u8,
    packet: &[u8],
    cache: &mut [u8],
    cache_lengths: &mut [u16],
    plain_n: &mut u8,
    plain_places: &mut [u8],
    plain_lengths: &mut [u16],
    pending_n: &mut u8,
    pending_places: &mut [u8],
    pending_lengths: &mut [u16],
    pending: &mut Pending,
    gather: &mut [u8],
) -> PacketReply
    ensures { IsPacketReply flags packet.now
        (memory_of (cache_of cache.old cache_lengths.old) (lent_list plain_n.old plain_places.old plain_lengths.old)
        (lent_list pending_n.old pending_places.old pending_lengths.old) pending.old gather.old)
        result
        (memory_of (cache_of cache.new cache_lengths.new) (lent_list plain_n.new plain_places.new plain_lengths.new)
        (lent_list pending_n.new pending_places.new pending_lengths.new) pending.new gather.new) }
{
    let taken = packet_calls::take_packet(
        Connection { flags },
        packet,
        cache,
        cache_lengths,
        plain_n,
        plain_places,
        plain_lengths,
        pending_n,
        pending_places,
        pending_lengths,
        *pending,
        gather,
    );
    *pending = taken.pending;
    taken.answer.into()
}
