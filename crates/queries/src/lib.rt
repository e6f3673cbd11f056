// Two questions on a message: a row's number, and an atom's text with its mark.
#![tactic(auto)]

ghost use Rattle.std.specs.Prelude.{◌≡◌, ◌≤◌, length, min};
ghost use Rattle.term_spec.specs.Answers.{number_case};
ghost use Rattle.term_spec.specs.AtomList.{lent_list};
ghost use Rattle.term_spec.specs.Message.{standalone, payload};
ghost use Rattle.reader.specs.Code.{framing_of};
ghost use Rattle.queries.specs.Code.{Asked, signed_number, float_number, content_number, numbered, atom_row, atom_among, no_atom, text_said, located, mark_at, bytes_at};
ghost use Rattle.queries.specs.Promises.{TextInside, NumberCall, LocateCall, TextCall, MarkCall};

use connection::Connection;
use reader::{FEW_BYTES, FEW_SLOTS, Framing, SOME_BYTES, read_larger, read_sized};
use row::{kind_in, offset_in};
use row_fields::{Content, content_at};
use term_rows::row_at;
use term_spec::{
    Mark, MarkAnswer, NumberAnswer, ReadAnswer, Refusal, RowNumber, TermsRead, kinds, refusals,
    sizes,
};

// The sign bit of a float.
const SIGN_BIT: u64 = 9223372036854775808;
// The bits of a float's infinity.
const INFINITY: u64 = 9218868437227405312;

// The rows of the tables for messages of at most FEW_BYTES, at most SOME_BYTES and of any length: a message has no more rows than bytes.
const FEW_ROWS: usize = FEW_BYTES;

const SOME_ROWS: usize = SOME_BYTES;

const MOST_ROWS: usize = sizes::ROWS_MOST;

// Where an atom's text stands: in the message, or in the list's places.
#[derive(Clone, Copy)]
pub enum TextAt {
    Message {
        start: usize,
        length: usize,
        latin1: bool,
    },
    List {
        start: usize,
        length: usize,
    },
}

// What an atom answers, asked where its text stands.
pub type TextAnswer = Result<TextAt, Refusal>;

// The whole number with this sign and magnitude, where an i64 holds it.
#[tactic(auto, unfolding(crate::specs::Code::signed_number, term_spec::specs::Answers::number_case))]
fn signed_number(negative: bool, magnitude: u64) -> RowNumber
    ensures { result ≡ number_case (signed_number negative magnitude) }
{
    let whole = if negative {
        0i64.checked_sub_unsigned(magnitude)
    } else {
        0i64.checked_add_unsigned(magnitude)
    };
    whole.map_or(RowNumber::Neither, RowNumber::Whole)
}

// The float that has these 64 bits, neither infinite nor no number.
#[tactic(auto, using(crate::proofs::Signed::no_nan), unfolding(crate::specs::Code::float_number, term_spec::specs::Answers::number_case))]
fn float_number(bits: u64) -> RowNumber
    ensures { result ≡ number_case (float_number bits) }
{
    if bits % SIGN_BIT < INFINITY {
        return RowNumber::Float(f64::from_bits(bits));
    }
    RowNumber::Neither
}

// The number that a term's own fields say.
#[tactic(auto, unfolding(crate::specs::Code::content_number, term_spec::specs::Answers::number_case))]
fn content_number(c: Content) -> RowNumber
    ensures { result ≡ number_case (content_number c) }
{
    match c {
        Content::Whole {
            negative,
            magnitude,
        } => signed_number(negative, magnitude),
        Content::Float { bits } => float_number(bits),
        _ => RowNumber::Neither,
    }
}

// The number of a row of a message, whose reading gave this answer and this table.
#[tactic(auto, unfolding(crate::specs::Code::numbered, term_spec::specs::Answers::number_case))]
fn numbered(
    msg: &[u8],
    places: &[u8],
    lengths: &[u16],
    table: &[u64],
    read: ReadAnswer,
    row: usize,
) -> NumberAnswer
    ensures { result ≡ numbered msg.now places.now lengths.now table.now read row }
{
    let TermsRead { rows, .. } = read?;
    if rows <= row {
        return Ok(RowNumber::Neither);
    }
    let w = row_at(table, row);
    Ok(content_number(content_at(msg, places, lengths, kind_in(w), offset_in(w))))
}

// Whether a row is that of an atom whose tag is at this offset.
#[tactic(auto, unfolding(crate::specs::Code::atom_row))]
fn atom_row(w: u64, at: usize) -> bool
    ensures { result ≡ atom_row w at }
{
    kind_in(w) == kinds::ATOM && offset_in(w) == at
}

// Whether one of the rows is that of an atom whose tag is at this offset.
#[tactic(auto, unfolding(crate::specs::Code::atom_among))]
fn atom_among(table: &[u64], rows: usize, at: usize) -> bool
    ensures { result ≡ atom_among table.now rows at }
{
    table.iter().take(rows).any(|w| atom_row(*w, at))
}

// The refusal where no atom's tag is at this offset.
fn no_atom(at: usize) -> Refusal
    ensures { result ≡ no_atom at }
{
    Refusal {
        number: refusals::FIELD,
        place: at,
    }
}

// Where the text stands that an atom's own fields say; refused where they are no atom's.
#[tactic(auto, unfolding(crate::specs::Code::text_said))]
fn text_said(c: Content, at: usize) -> TextAnswer
    ensures { result ≡ text_said at c }
{
    match c {
        Content::Text {
            listed: true,
            start,
            length,
            ..
        } => Ok(TextAt::List { start, length }),
        Content::Text {
            latin1,
            start,
            length,
            ..
        } => Ok(TextAt::Message {
            start,
            length,
            latin1,
        }),
        _ => Err(no_atom(at)),
    }
}

// Where the text of the atom at this offset of a message stands, whose reading gave this answer and this table.
#[tactic(auto, unfolding(crate::specs::Code::located))]
fn located(
    msg: &[u8],
    places: &[u8],
    lengths: &[u16],
    table: &[u64],
    read: ReadAnswer,
    at: usize,
) -> TextAnswer
    ensures { result ≡ located msg.now places.now lengths.now table.now read at }
{
    let TermsRead { rows, .. } = read?;
    if !atom_among(table, rows, at) {
        return Err(no_atom(at));
    }
    text_said(content_at(msg, places, lengths, kinds::ATOM, at), at)
}

// The mark of a text that stands there.
#[tactic(auto, unfolding(crate::specs::Code::mark_at))]
fn mark_at(t: TextAt) -> Mark
    ensures { result ≡ mark_at t }
{
    match t {
        TextAt::Message { latin1: true, .. } => Mark::Latin1,
        TextAt::Message { .. } | TextAt::List { .. } => Mark::Utf8,
    }
}

// The bytes of a text that stands there, none where refused.
#[tactic(auto, unfolding(crate::specs::Code::bytes_at, crate::specs::Promises::TextInside))]
fn bytes_at<'a>(msg: &'a [u8], places: &'a [u8], t: TextAnswer) -> &'a [u8]
    requires { TextInside msg.now places.now t }
    ensures { result.now ≡ bytes_at msg.now places.now t }
{
    match t {
        Ok(TextAt::Message { start, length, .. }) => &msg[start..start + length],
        Ok(TextAt::List { start, length }) => &places[start..start + length],
        Err(_) => &msg[..0],
    }
}

// Reads a message into a table of ROWS rows, and answers what `answer` makes of it. It is never inlined, so that a small message has a small stack.
#[inline(never)]
fn ask_sized<const ROWS: usize, A, F: FnOnce(&[u64], ReadAnswer) -> A>(
    flags: u8,
    msg: &[u8],
    n: u8,
    places: &[u8],
    lengths: &[u16],
    framing: Framing,
    answer: F,
) -> A
    requires enough { min 8192 (length msg.now) ≤ ROWS }
    requires most { ROWS ≤ 8192 }
    requires callable { F.IsAlwaysCallable answer }
    ensures { Asked flags (framing_of framing) (lent_list n places.now lengths.now) msg.now (λ table read. (p : _) × F.post answer p read result × (p.now ≡ table)) }
{
    let mut table = [0u64; ROWS];
    let read = if ROWS == FEW_ROWS {
        read_sized::<FEW_SLOTS>(flags, msg, n, places, lengths, &mut table, framing)
    } else {
        read_larger(flags, msg, n, places, lengths, &mut table, framing)
    };
    answer(&table, read)
}

// Reads a message into a table of a row for each of its bytes, of 8,192 rows at most, and answers what `answer` makes of it.
fn ask<A, F: FnOnce(&[u64], ReadAnswer) -> A>(
    connection: Connection,
    msg: &[u8],
    n: u8,
    places: &[u8],
    lengths: &[u16],
    framing: Framing,
    answer: F,
) -> A
    requires callable { F.IsAlwaysCallable answer }
    ensures { Asked connection.flags (framing_of framing) (lent_list n places.now lengths.now) msg.now (λ table read. (p : _) × F.post answer p read result × (p.now ≡ table)) }
{
    let flags = connection.flags;
    if msg.len() <= FEW_BYTES {
        return ask_sized::<FEW_ROWS, A, F>(flags, msg, n, places, lengths, framing, answer);
    }
    if msg.len() <= SOME_BYTES {
        return ask_sized::<SOME_ROWS, A, F>(flags, msg, n, places, lengths, framing, answer);
    }
    ask_sized::<MOST_ROWS, A, F>(flags, msg, n, places, lengths, framing, answer)
}

// The number of a row of a standalone term, with the connection's flags and this atom list.
pub fn number_standalone(
    connection: Connection,
    msg: &[u8],
    n: u8,
    places: &[u8],
    lengths: &[u16],
    row: usize,
) -> NumberAnswer
    ensures { NumberCall connection.flags standalone (lent_list n places.now lengths.now) msg.now row result }
{
    ask(
        connection,
        msg,
        n,
        places,
        lengths,
        Framing::Standalone,
        |table, read| numbered(msg, places, lengths, table, read, row),
    )
}

// Where the text stands of the atom whose tag is at this offset of a standalone term.
pub fn locate_standalone(
    connection: Connection,
    msg: &[u8],
    n: u8,
    places: &[u8],
    lengths: &[u16],
    at: usize,
) -> TextAnswer
    ensures { LocateCall connection.flags standalone (lent_list n places.now lengths.now) msg.now at result }
{
    ask(
        connection,
        msg,
        n,
        places,
        lengths,
        Framing::Standalone,
        |table, read| located(msg, places, lengths, table, read, at),
    )
}

// The text of the atom whose tag is at this offset of a standalone term, empty where refused.
#[tactic(auto, using(crate::proofs::Calls::bytes_told))]
pub fn text_standalone<'a>(
    connection: Connection,
    msg: &'a [u8],
    n: u8,
    places: &'a [u8],
    lengths: &[u16],
    at: usize,
) -> &'a [u8]
    ensures { TextCall connection.flags standalone (lent_list n places.now lengths.now) msg.now at result.now }
{
    bytes_at(
        msg,
        places,
        locate_standalone(connection, msg, n, places, lengths, at),
    )
}

// The mark of that text, or the refusal.
pub fn mark_standalone(
    connection: Connection,
    msg: &[u8],
    n: u8,
    places: &[u8],
    lengths: &[u16],
    at: usize,
) -> MarkAnswer
    ensures { MarkCall connection.flags standalone (lent_list n places.now lengths.now) msg.now at result }
{
    locate_standalone(connection, msg, n, places, lengths, at).map(mark_at)
}

// The number of a row of a payload, with the connection's flags and this atom list.
pub fn number_payload(
    connection: Connection,
    msg: &[u8],
    n: u8,
    places: &[u8],
    lengths: &[u16],
    row: usize,
) -> NumberAnswer
    ensures { NumberCall connection.flags payload (lent_list n places.now lengths.now) msg.now row result }
{
    ask(
        connection,
        msg,
        n,
        places,
        lengths,
        Framing::Payload,
        |table, read| numbered(msg, places, lengths, table, read, row),
    )
}

// Where the text stands of the atom whose tag is at this offset of a payload.
pub fn locate_payload(
    connection: Connection,
    msg: &[u8],
    n: u8,
    places: &[u8],
    lengths: &[u16],
    at: usize,
) -> TextAnswer
    ensures { LocateCall connection.flags payload (lent_list n places.now lengths.now) msg.now at result }
{
    ask(
        connection,
        msg,
        n,
        places,
        lengths,
        Framing::Payload,
        |table, read| located(msg, places, lengths, table, read, at),
    )
}

// The text of the atom whose tag is at this offset of a payload, empty where refused.
#[tactic(auto, using(crate::proofs::Calls::bytes_told))]
pub fn text_payload<'a>(
    connection: Connection,
    msg: &'a [u8],
    n: u8,
    places: &'a [u8],
    lengths: &[u16],
    at: usize,
) -> &'a [u8]
    ensures { TextCall connection.flags payload (lent_list n places.now lengths.now) msg.now at result.now }
{
    bytes_at(
        msg,
        places,
        locate_payload(connection, msg, n, places, lengths, at),
    )
}

// The mark of that text, or the refusal.
pub fn mark_payload(
    connection: Connection,
    msg: &[u8],
    n: u8,
    places: &[u8],
    lengths: &[u16],
    at: usize,
) -> MarkAnswer
    ensures { MarkCall connection.flags payload (lent_list n places.now lengths.now) msg.now at result }
{
    locate_payload(connection, msg, n, places, lengths, at).map(mark_at)
}
