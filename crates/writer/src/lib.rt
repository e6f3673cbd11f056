// The canonical writer: the terms of a message as standalone terms, written from the rows that reading made of them.
#![tactic(auto)]

ghost use Rattle.std.specs.Prelude.{◌≡◌, ◌≤◌, length};
ghost use Rattle.term_spec.specs.AtomList.{lent_list};
ghost use Rattle.term_spec.specs.Message.{standalone, payload};
ghost use Rattle.term_spec.specs.Promises.{WriteCall};
ghost use Rattle.term_spec.specs.Writing.{scratch_after};
ghost use Rattle.key_order.specs.Code.{SlotsFor};
ghost use Rattle.table_writer.specs.Code.{SomeRows, RowsWritten};
ghost use Rattle.writer.specs.Code.{ZeroPast, RowsRead, WrittenAndCleared};

use connection::Connection;
use term_rows::Rows;
use term_spec::{TermsRead, WriteAnswer, sizes};

// Terms of at most few, some and more rows, each with as many slots; those of more have ROWS_MOST.
const FEW_ROWS: usize = 64;

const SOME_ROWS: usize = 512;

const MORE_ROWS: usize = 2048;

// So many keys have as many rows, with their values.
const FEW_KEYS: usize = FEW_ROWS / sizes::PAIR_PARTS;

const SOME_KEYS: usize = SOME_ROWS / sizes::PAIR_PARTS;

const MORE_KEYS: usize = MORE_ROWS / sizes::PAIR_PARTS;

const MOST_KEYS: usize = sizes::ROWS_MOST / sizes::PAIR_PARTS;

// Clears a table whose words from index `rows` on are 0.
fn clear_rows(table: &mut [u64], rows: usize)
    requires { ZeroPast table.old rows }
    ensures { table.new ≡ scratch_after (length table.old) }
{
    table[..rows].fill(0);
}

// Writes the terms that were read into a table, with slots for so many rows and so many keys, on a stack of its own.
#[inline(never)]
fn write_sized<const ROWS: usize, const KEYS: usize>(
    rows: &Rows,
    read: TermsRead,
    out: &mut [u8],
) -> WriteAnswer
    requires terms { SomeRows rows.now.msg.now rows.now.places.now rows.now.lengths.now rows.now.table.now read.terms read.rows }
    requires slots { SlotsFor read.rows ROWS KEYS }
    requires few { (ROWS ≤ 8192) × (KEYS ≤ 8192) }
    ensures { RowsWritten rows.now.msg.now rows.now.places.now rows.now.lengths.now rows.now.table.now read.terms read.rows out.old result out.new }
{
    let mut order = [0u16; ROWS];
    let mut run = [0u16; KEYS];
    table_writer::write_rows(rows, &mut order, &mut run, read, out)
}

// The same with the fewest slots that do for so many rows: terms of few rows take a small stack.
fn write_fitted(rows: &Rows, read: TermsRead, out: &mut [u8]) -> WriteAnswer
    requires terms { SomeRows rows.now.msg.now rows.now.places.now rows.now.lengths.now rows.now.table.now read.terms read.rows }
    requires few { read.rows ≤ 8192 }
    ensures { RowsWritten rows.now.msg.now rows.now.places.now rows.now.lengths.now rows.now.table.now read.terms read.rows out.old result out.new }
{
    if read.rows <= FEW_ROWS {
        return write_sized::<FEW_ROWS, FEW_KEYS>(rows, read, out);
    }
    if read.rows <= SOME_ROWS {
        return write_sized::<SOME_ROWS, SOME_KEYS>(rows, read, out);
    }
    if read.rows <= MORE_ROWS {
        return write_sized::<MORE_ROWS, MORE_KEYS>(rows, read, out);
    }
    write_sized::<{ sizes::ROWS_MOST }, MOST_KEYS>(rows, read, out)
}

// The same, and clears the table.
fn write_and_clear(
    msg: &[u8],
    places: &[u8],
    lengths: &[u16],
    table: &mut [u64],
    read: TermsRead,
    out: &mut [u8],
) -> WriteAnswer
    requires { RowsRead msg.now places.now lengths.now table.old read.terms read.rows }
    ensures { WrittenAndCleared msg.now places.now lengths.now table.old read.terms read.rows out.old result table.new out.new }
{
    let rows = Rows {
        msg,
        places,
        lengths,
        table: &*table,
    };
    let answer = write_fitted(&rows, read, out);
    clear_rows(table, read.rows);
    answer
}

// Writes the term of a standalone message, with the connection's flags and this atom list, as a canonical standalone term; the scratch table ends all zero.
pub fn write_standalone(
    connection: Connection,
    msg: &[u8],
    n: u8,
    places: &[u8],
    lengths: &[u16],
    scratch: &mut [u64],
    output: &mut [u8],
) -> WriteAnswer
    ensures { WriteCall connection.flags standalone (lent_list n places.now lengths.now) msg.now scratch.old output.old result scratch.new output.new }
{
    let read = reader::read_standalone(connection, msg, n, places, lengths, scratch)?;
    write_and_clear(msg, places, lengths, scratch, read, output)
}

// Writes the terms of a payload, with the connection's flags and this atom list, as canonical standalone terms one after the other; the scratch table ends all zero.
pub fn write_payload(
    connection: Connection,
    msg: &[u8],
    n: u8,
    places: &[u8],
    lengths: &[u16],
    scratch: &mut [u64],
    output: &mut [u8],
) -> WriteAnswer
    ensures { WriteCall connection.flags payload (lent_list n places.now lengths.now) msg.now scratch.old output.old result scratch.new output.new }
{
    let read = reader::read_payload(connection, msg, n, places, lengths, scratch)?;
    write_and_clear(msg, places, lengths, scratch, read, output)
}
