// Reading messages into a table of rows: a standalone term, or the terms of a payload.
#![tactic(auto)]

ghost use Rattle.std.specs.Prelude.{◌≡◌, ℕ, ◌<◌, ◌≤◌, length, MatchResult};
ghost use Rattle.term_spec.specs.AtomList.{lent_list};
ghost use Rattle.term_spec.specs.Message.{standalone, payload};
ghost use Rattle.term_spec.specs.Promises.{ReadCall};
ghost use Rattle.octets.specs.Cleared.{cleared};
ghost use Rattle.context.specs.Given.{list_in, given_in};
ghost use Rattle.term_reader.specs.Code.{Room};
ghost use Rattle.reader.specs.Code.{first_refusal, rows_in, framing_of, OutermostRead, MessageRead};

use connection::Connection;
use context::Context;
use term_head::Wanted;
use term_reader::Reached;
use term_spec::{ReadAnswer, Refusal, TermsRead, refusals, sizes, tags};

// Messages of at most few, some and more bytes, each with as many slots as its keys may need and half as many again; a longer one has MOST_SLOTS.
pub const FEW_BYTES: usize = 256;

pub const SOME_BYTES: usize = 1024;

const MORE_BYTES: usize = 4096;

pub const FEW_SLOTS: usize = 128;

const SOME_SLOTS: usize = 512;

const MORE_SLOTS: usize = 2048;

const MOST_SLOTS: usize = 8192;

// How the terms of a message are set: as a standalone term, or as a payload.
#[derive(Clone, Copy)]
pub enum Framing {
    Standalone,
    Payload,
}

// An outermost term: 64 levels are left for it, and it has no whole.
fn read_outermost(
    c: &Context,
    table: &mut [u64],
    seen: &mut [u16],
    at: usize,
    row: usize,
) -> Result<Reached, Refusal>
    requires room { Room c.now.msg.now (list_in c.now) table.old c.now.capacity at row 0 }
    requires seen_nonzero { 0 < length seen.old }
    ensures { OutermostRead c.now.msg.now (given_in c.now) c.now.capacity at row table.old result table.new }
{
    term_reader::read_run(
        c,
        table,
        seen,
        at,
        row,
        0,
        sizes::DEPTH_MOST,
        Wanted::Any,
        1,
    )
}

// Bytes left over from `next` on are refused.
fn ended(msg: &[u8], next: usize) -> Result<(), Refusal>
    ensures { MatchResult result (λ _. length msg.now ≤ next) (λ r. (next < length msg.now) × (r ≡ record { number = 10; place = next })) }
{
    if next < msg.len() {
        return Err(Refusal {
            number: refusals::LEFT_OVER,
            place: next,
        });
    }
    Ok(())
}

// A standalone term: 131, one term, end.
fn standalone_terms(c: &Context, table: &mut [u64], seen: &mut [u16]) -> ReadAnswer
    requires room { Room c.now.msg.now (list_in c.now) table.old c.now.capacity 0 0 0 }
    requires seen_nonzero { 0 < length seen.old }
    ensures { MessageRead standalone c.now.msg.now (given_in c.now) c.now.capacity table.old result table.new }
{
    if c.msg.len() == 0 || c.msg[0] != tags::VERSION {
        return Err(Refusal {
            number: refusals::NO_VERSION,
            place: 0,
        });
    }
    let only = read_outermost(c, table, seen, 1, 0)?;
    ended(c.msg, only.next)?;
    Ok(TermsRead {
        terms: 1,
        rows: only.rows,
    })
}

// A payload: one or two terms, end.
fn payload_terms(c: &Context, table: &mut [u64], seen: &mut [u16]) -> ReadAnswer
    requires room { Room c.now.msg.now (list_in c.now) table.old c.now.capacity 0 0 0 }
    requires seen_nonzero { 0 < length seen.old }
    ensures { MessageRead payload c.now.msg.now (given_in c.now) c.now.capacity table.old result table.new }
{
    let first = read_outermost(c, table, seen, 0, 0)?;
    if c.msg.len() <= first.next {
        return Ok(TermsRead {
            terms: 1,
            rows: first.rows,
        });
    }
    let second = read_outermost(c, table, seen, first.next, first.rows)?;
    ended(c.msg, second.next)?;
    Ok(TermsRead {
        terms: 2,
        rows: second.rows,
    })
}

// The terms of a message that are set so.
fn framed_terms(c: &Context, table: &mut [u64], seen: &mut [u16], framing: Framing) -> ReadAnswer
    requires room { Room c.now.msg.now (list_in c.now) table.old c.now.capacity 0 0 0 }
    requires seen_nonzero { 0 < length seen.old }
    ensures { MessageRead (framing_of framing) c.now.msg.now (given_in c.now) c.now.capacity table.old result table.new }
{
    match framing {
        Framing::Standalone => standalone_terms(c, table, seen),
        Framing::Payload => payload_terms(c, table, seen),
    }
}

// The refusal that comes before any byte is read: 13 for an atom list not of its size, 14 for an unknown flag, 12 for a message too long.
fn first_refusal(flags: u8, msg: &[u8], places: &[u8], lengths: &[u16]) -> Option<u8>
    ensures { (n : ℕ) → result ≡ first_refusal flags (lent_list n places.now lengths.now) msg.now }
{
    if !atom_list::list_fits(places, lengths) {
        return Some(refusals::SIZE);
    }
    if !connection::flags_known(flags) {
        return Some(refusals::STATE);
    }
    if sizes::MESSAGE_MOST < msg.len() {
        return Some(refusals::LONG);
    }
    None
}

// Past the rows of what was read, or everywhere after a refusal, the table is zero.
fn settle(table: &mut [u64], answer: ReadAnswer) -> ReadAnswer
    ensures { (result ≡ answer) × (table.new ≡ cleared (rows_in answer) table.old) }
{
    let rows = match answer {
        Ok(read) => read.rows,
        Err(_) => 0,
    };
    octets::clear_words(table, rows);
    answer
}

// Reads the terms of a message that are set so into the table, with these flags, this atom list and these slots for keys.
fn read_with(
    flags: u8,
    msg: &[u8],
    n: u8,
    places: &[u8],
    lengths: &[u16],
    table: &mut [u64],
    seen: &mut [u16],
    framing: Framing,
) -> ReadAnswer
    requires { 0 < length seen.old }
    ensures { ReadCall flags (framing_of framing) (lent_list n places.now lengths.now) msg.now table.old result table.new }
{
    if let Some(number) = first_refusal(flags, msg, places, lengths) {
        return settle(table, Err(Refusal { number, place: 0 }));
    }
    let c = Context {
        msg,
        places,
        lengths,
        n,
        flags,
        capacity: table.len().min(sizes::ROWS_MOST),
    };
    let answer = framed_terms(&c, table, seen, framing);
    settle(table, answer)
}

// Reads a message with SLOTS slots for the keys of its maps: FEW_SLOTS serve one of at most FEW_BYTES.
pub fn read_sized<const SLOTS: usize>(
    flags: u8,
    msg: &[u8],
    n: u8,
    places: &[u8],
    lengths: &[u16],
    table: &mut [u64],
    framing: Framing,
) -> ReadAnswer
    requires some { 0 < SLOTS }
    requires few { SLOTS ≤ 8192 }
    ensures { ReadCall flags (framing_of framing) (lent_list n places.now lengths.now) msg.now table.old result table.new }
{
    let mut seen = [0u16; SLOTS];
    read_with(flags, msg, n, places, lengths, table, &mut seen, framing)
}

// Reads a message with the slots that one of more than FEW_BYTES needs. A smaller one does not come here, so that its stack is free of them. A list that is not of
// its size is refused with few; looked at here, its two slices are handed on as numbers, which is quicker than a copy of what was just stored.
pub fn read_larger(
    flags: u8,
    msg: &[u8],
    n: u8,
    places: &[u8],
    lengths: &[u16],
    table: &mut [u64],
    framing: Framing,
) -> ReadAnswer
    ensures { ReadCall flags (framing_of framing) (lent_list n places.now lengths.now) msg.now table.old result table.new }
{
    if !atom_list::list_fits(places, lengths) {
        return read_sized::<FEW_SLOTS>(flags, msg, n, places, lengths, table, framing);
    }
    if msg.len() <= SOME_BYTES {
        return read_sized::<SOME_SLOTS>(flags, msg, n, places, lengths, table, framing);
    }
    if msg.len() <= MORE_BYTES {
        return read_sized::<MORE_SLOTS>(flags, msg, n, places, lengths, table, framing);
    }
    read_sized::<MOST_SLOTS>(flags, msg, n, places, lengths, table, framing)
}

// Reads a standalone term into the table, with the connection's flags and this atom list.
pub fn read_standalone(
    connection: Connection,
    msg: &[u8],
    n: u8,
    places: &[u8],
    lengths: &[u16],
    table: &mut [u64],
) -> ReadAnswer
    ensures { ReadCall connection.flags standalone (lent_list n places.now lengths.now) msg.now table.old result table.new }
{
    if msg.len() <= FEW_BYTES {
        return read_sized::<FEW_SLOTS>(
            connection.flags,
            msg,
            n,
            places,
            lengths,
            table,
            Framing::Standalone,
        );
    }
    read_larger(
        connection.flags,
        msg,
        n,
        places,
        lengths,
        table,
        Framing::Standalone,
    )
}

// Reads the terms of a payload into the table, with the connection's flags and this atom list.
pub fn read_payload(
    connection: Connection,
    msg: &[u8],
    n: u8,
    places: &[u8],
    lengths: &[u16],
    table: &mut [u64],
) -> ReadAnswer
    ensures { ReadCall connection.flags payload (lent_list n places.now lengths.now) msg.now table.old result table.new }
{
    if msg.len() <= FEW_BYTES {
        return read_sized::<FEW_SLOTS>(
            connection.flags,
            msg,
            n,
            places,
            lengths,
            table,
            Framing::Payload,
        );
    }
    read_larger(
        connection.flags,
        msg,
        n,
        places,
        lengths,
        table,
        Framing::Payload,
    )
}
