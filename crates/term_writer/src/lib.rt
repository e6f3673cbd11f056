// One term in canonical form, and terms one after the other: measured and written from the rows that reading made of them, with the order of maps' pairs in slots.
#![tactic(auto)]

ghost use Rattle.std.specs.Prelude.{◌≡◌, true, false, ◌+◌, ◌≤◌, ◌<◌, length, get_or, MatchOption};
ghost use Rattle.term_spec.specs.Canonical.{canonical};
ghost use Rattle.term_writer.specs.PairOrder.{HasOrder};
ghost use Rattle.term_writer.specs.Code.{canonicals, SomeTerm, SomeRun, SomeSmall, StringTold, SmallTold, CharactersPut, StringPut, TermLength, TermPut, TermFits, RunLength, RunPut, RunFits, PairsPut, PairsFit, PartsPut, PartsFit};

use term_rows::Rows;
use term_spec::{kinds, sizes, tags};

// A map with so many parts has two pairs: fewer need no order.
const ORDERED_PARTS: usize = 4;

// Whether a row's word is that of a map of two pairs or more.
pub fn has_order(word: u64) -> bool
    ensures { (result ≡ true → HasOrder word) × (result ≡ false → HasOrder word → ⊥) }
{
    row::kind_in(word) == kinds::MAP && ORDERED_PARTS <= row::parts_in(word)
}

// The slot at a row; none where it is 0 or past the end of them.
fn slot_at(order: &[u16], row: usize) -> Option<usize>
    ensures { MatchOption result (get_or order.now row 0 ≡ 0) (λ slot. (slot ≡ get_or order.now row 0) × (0 < slot)) }
{
    order
        .get(row)
        .filter(|slot| **slot != 0)
        .map(|slot| usize::from(*slot))
}

// Whether the n terms whose rows begin at `row` are all integers 0 to 255.
fn all_small(rows: &Rows, row: usize, n: usize) -> bool
    requires { SomeRun rows.now.msg.now rows.now.places.now rows.now.lengths.now rows.now.table.now row n }
    ensures { SmallTold rows.now.msg.now rows.now.places.now rows.now.lengths.now rows.now.table.now row n result }
{
    for i in 0..n {
        if characters::character_at(
            rows.msg,
            rows.places,
            rows.lengths,
            rows.table[row + i],
        ).is_none()
        {
            return false;
        }
    }
    true
}

// Whether the term at `row` is written as a string.
fn is_string(rows: &Rows, row: usize) -> bool
    requires { SomeTerm rows.now.msg.now rows.now.places.now rows.now.lengths.now rows.now.table.now row }
    ensures { StringTold rows.now.msg.now rows.now.places.now rows.now.lengths.now rows.now.table.now row result }
{
    let word = rows.table[row];
    let n = row::parts_in(word);
    row::kind_in(word) == kinds::LIST && n != 0 && all_small(rows, row + 1, n)
}

// Writes the n integers 0 to 255 whose rows begin at `row` as bytes from `at` on; the offset past them.
fn put_characters(rows: &Rows, row: usize, n: usize, out: &mut [u8], at: usize) -> usize
    requires { SomeSmall rows.now.msg.now rows.now.places.now rows.now.lengths.now rows.now.table.now row n × (at + n ≤ length out.old) }
    ensures { CharactersPut rows.now.msg.now rows.now.places.now rows.now.lengths.now rows.now.table.now row n out.old at result out.new }
{
    for i in 0..n {
        let c = characters::character_at(rows.msg, rows.places, rows.lengths, rows.table[row + i]);
        out[at + i] = c.unwrap();
    }
    at + n
}

// Writes the n integers 0 to 255 whose rows begin at `row` as a string from `at` on; the offset past it.
fn put_string(rows: &Rows, row: usize, n: usize, out: &mut [u8], at: usize) -> usize
    requires { SomeSmall rows.now.msg.now rows.now.places.now rows.now.lengths.now rows.now.table.now row n × (at + (n + 3) ≤ length out.old) × (n < 65536) }
    ensures { StringPut rows.now.msg.now rows.now.places.now rows.now.lengths.now rows.now.table.now row n out.old at result out.new }
{
    out[at] = tags::STRING_EXT;
    octets::put2(out, at + 1, n);
    put_characters(rows, row, n, out, at + 3)
}

// How many bytes the canonical form of the term at `row` has.
#[cycle(length)]
fn length_term(rows: &Rows, row: usize) -> usize
    requires { SomeTerm rows.now.msg.now rows.now.places.now rows.now.lengths.now rows.now.table.now row }
    ensures { TermLength rows.now.msg.now rows.now.places.now rows.now.lengths.now rows.now.table.now row result }
{
    let word = rows.table[row];
    let n = row::parts_in(word);
    if n == 0 {
        return field_writer::own_length(rows.msg, rows.places, rows.lengths, word);
    }
    if is_string(rows, row) {
        return n + 3;
    }
    let own = field_writer::own_length(rows.msg, rows.places, rows.lengths, word);
    let inner = length_run(rows, row + 1, n);
    own + inner
}

// How many bytes those of the n terms whose rows begin at `row` have.
#[cycle(length)]
pub fn length_run(rows: &Rows, row: usize, n: usize) -> usize
    requires { SomeRun rows.now.msg.now rows.now.places.now rows.now.lengths.now rows.now.table.now row n }
    ensures { RunLength rows.now.msg.now rows.now.places.now rows.now.lengths.now rows.now.table.now row n result }
{
    let mut next = row;
    let mut sum = 0;
    for _ in 0..n {
        sum += length_term(rows, next);
        next += row::size_in(rows.table[next]);
    }
    sum
}

// Writes the canonical form of the term at `row` from `at` on; the offset past it.
#[cycle(write)]
pub fn write_term(rows: &Rows, order: &[u16], row: usize, out: &mut [u8], at: usize) -> usize
    requires { TermFits rows.now.msg.now rows.now.places.now rows.now.lengths.now rows.now.table.now row order.now canonical (length out.old) at }
    ensures { TermPut rows.now.msg.now rows.now.places.now rows.now.lengths.now rows.now.table.now row order.now canonical out.old at result out.new }
{
    let word = rows.table[row];
    let n = row::parts_in(word);
    if n == 0 {
        return field_writer::put_leaf(rows.msg, rows.places, rows.lengths, word, out, at);
    }
    if is_string(rows, row) {
        return put_string(rows, row + 1, n, out, at);
    }
    let first = field_writer::put_before(rows.msg, rows.places, rows.lengths, word, out, at);
    let end = write_parts(rows, order, row, out, first);
    field_writer::put_after(rows.msg, rows.places, rows.lengths, word, out, end)
}

// Writes the parts of the term at `row`, which is not written as a string; the offset past them.
#[cycle(write)]
fn write_parts(rows: &Rows, order: &[u16], row: usize, out: &mut [u8], at: usize) -> usize
    requires { PartsFit rows.now.msg.now rows.now.places.now rows.now.lengths.now rows.now.table.now row order.now (length out.old) at }
    ensures { PartsPut rows.now.msg.now rows.now.places.now rows.now.lengths.now rows.now.table.now row order.now out.old at result out.new }
{
    let word = rows.table[row];
    let n = row::parts_in(word);
    if has_order(word) && slot_at(order, row + 1).is_some() {
        return write_pairs(rows, order, row + 1, n / sizes::PAIR_PARTS, out, at);
    }
    write_run(rows, order, row + 1, n, out, at)
}

// Writes those of the n terms whose rows begin at `row`, one after the other; the offset past them.
#[cycle(write)]
fn write_run(rows: &Rows, order: &[u16], row: usize, n: usize, out: &mut [u8], at: usize) -> usize
    requires { RunFits rows.now.msg.now rows.now.places.now rows.now.lengths.now rows.now.table.now row order.now canonicals n (length out.old) at }
    ensures { RunPut rows.now.msg.now rows.now.places.now rows.now.lengths.now rows.now.table.now row order.now canonicals n out.old at result out.new }
{
    let mut next = row;
    let mut end = at;
    for _ in 0..n {
        end = write_term(rows, order, next, out, end);
        next += row::size_in(rows.table[next]);
    }
    end
}

// Writes the n pairs of a map, the first one's key at `row`, in the order that their slots give; the offset past them.
#[cycle(write)]
fn write_pairs(rows: &Rows, order: &[u16], row: usize, n: usize, out: &mut [u8], at: usize) -> usize
    requires { PairsFit rows.now.msg.now rows.now.places.now rows.now.lengths.now rows.now.table.now row order.now n (length out.old) at }
    ensures { PairsPut rows.now.msg.now rows.now.places.now rows.now.lengths.now rows.now.table.now row order.now n out.old at result out.new }
{
    let mut key = row;
    let mut end = at;
    for _ in 0..n {
        let slot = usize::from(order[key]);
        end = write_run(rows, order, slot, sizes::PAIR_PARTS, out, end);
        let value = key + row::size_in(rows.table[key]);
        key = value + row::size_in(rows.table[value]);
    }
    end
}
