// The terms whose rows fill a table, written as canonical standalone terms one after the other.
#![tactic(auto)]

ghost use Rattle.std.specs.Prelude.{length};
ghost use Rattle.term_spec.specs.Canonical.{canonical_standalone, standalones};
ghost use Rattle.term_writer.specs.Code.{TermPut, TermFits, RunPut, RunFits};
ghost use Rattle.key_order.specs.Code.{SlotsFor};
ghost use Rattle.table_writer.specs.Code.{SomeRows, RowsFit, RowsPut, RowsWritten};

use term_rows::Rows;
use term_spec::{Refusal, TermsRead, TermsWritten, WriteAnswer, refusals, tags};

// Writes the term at `row` as a standalone term from `at` on; the offset past it.
fn put_standalone(rows: &Rows, order: &[u16], row: usize, out: &mut [u8], at: usize) -> usize
    requires { TermFits rows.now.msg.now rows.now.places.now rows.now.lengths.now rows.now.table.now row order.now canonical_standalone (length out.old) at }
    ensures { TermPut rows.now.msg.now rows.now.places.now rows.now.lengths.now rows.now.table.now row order.now canonical_standalone out.old at result out.new }
{
    out[at] = tags::VERSION;
    term_writer::write_term(rows, order, row, out, at + 1)
}

// Writes the n terms of the table as standalone terms, one after the other; the offset past them.
fn put_standalones(rows: &Rows, order: &[u16], n: usize, out: &mut [u8]) -> usize
    requires { RunFits rows.now.msg.now rows.now.places.now rows.now.lengths.now rows.now.table.now 0 order.now standalones n (length out.old) 0 }
    ensures { RunPut rows.now.msg.now rows.now.places.now rows.now.lengths.now rows.now.table.now 0 order.now standalones n out.old 0 result out.new }
{
    let mut next = 0;
    let mut end = 0;
    for _ in 0..n {
        end = put_standalone(rows, order, next, out, end);
        next += row::size_in(rows.table[next]);
    }
    end
}

// Puts the pairs of each map in order with these slots, and writes the terms that were read into the table.
fn put_ordered(rows: &Rows, order: &mut [u16], run: &mut [u16], read: TermsRead, out: &mut [u8])
    requires { RowsFit rows.now.msg.now rows.now.places.now rows.now.lengths.now rows.now.table.now read.terms read.rows (length out.old) × SlotsFor read.rows (length order.old) (length run.old) }
    ensures { RowsPut rows.now.msg.now rows.now.places.now rows.now.lengths.now rows.now.table.now read.terms read.rows out.old out.new }
{
    key_order::order_keys(rows, read.rows, order, run, out);
    put_standalones(rows, order, read.terms, out);
}

// Writes the terms that were read into the table, where the output has room for them; with slots for the order of pairs.
pub fn write_rows(
    rows: &Rows,
    order: &mut [u16],
    run: &mut [u16],
    read: TermsRead,
    out: &mut [u8],
) -> WriteAnswer
    requires { SomeRows rows.now.msg.now rows.now.places.now rows.now.lengths.now rows.now.table.now read.terms read.rows × SlotsFor read.rows (length order.old) (length run.old) }
    ensures { RowsWritten rows.now.msg.now rows.now.places.now rows.now.lengths.now rows.now.table.now read.terms read.rows out.old result out.new }
{
    let terms = read.terms;
    let length = terms + term_writer::length_run(rows, 0, terms);
    if out.len() < length {
        return Err(Refusal {
            number: refusals::OUTPUT,
            place: 0,
        });
    }
    put_ordered(rows, order, run, read, out);
    Ok(TermsWritten { terms, length })
}
