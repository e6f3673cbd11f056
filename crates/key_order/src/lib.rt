// The order in which the pairs of maps are written: slots, one for each row, filled so that the keys' canonical forms rise in byte order.
#![tactic(auto)]

ghost use Rattle.std.specs.Prelude.{◌≡◌, List, ◌∷◌, ℕ, ◌-◌, ◌≤◌, ◌<◌, length, get_or, IfSome};
ghost use Rattle.std.proofs.lemmas.List.Edits.{sets};
ghost use Rattle.octets.specs.Parts.{stretch};
ghost use Rattle.term_spec.specs.Reading.{Located};
ghost use Rattle.term_writer.specs.InTable.{TermInTable};
ghost use Rattle.term_writer.specs.PairOrder.{HasOrder};
ghost use Rattle.key_order.specs.Code.{SlotsFit, SlotsFilled, FormStands, TwoFit, Compared, KeysFit, PlaceFound, PairsFit, KeysSorted, MapFits, MapOrdered, RunFits, SlotsFor, AllInOrder};

use term_rows::Rows;
use term_spec::sizes;

// How many bytes of the message from its tag on are the canonical form of the term at the row; none where they may not be.
fn form_stands(rows: &Rows, row: usize) -> Option<usize>
    requires { row < length rows.now.table.now }
    ensures { (places lengths : List ℕ) (t : Located) → TermInTable rows.now.msg.now places lengths rows.now.table.now row t → IfSome result (λ n. FormStands rows.now.msg.now rows.now.table.now row n t) }
{
    let word = rows.table[row];
    if row::parts_in(word) != 0 {
        return None;
    }
    already_canonical::as_it_stands(rows.msg, word)
}

// Whether the canonical form of the term at row a may stand before that of the term at row b: both are written, one after the other, and compared.
fn written_before(rows: &Rows, order: &[u16], out: &mut [u8], a: usize, b: usize) -> bool
    requires { TwoFit rows.now.msg.now rows.now.places.now rows.now.lengths.now rows.now.table.now order.now a b (length out.old) }
    ensures { Compared rows.now.msg.now rows.now.places.now rows.now.lengths.now rows.now.table.now order.now a b out.old result out.new }
{
    let first = term_writer::write_term(rows, order, a, out, 0);
    let second = term_writer::write_term(rows, order, b, out, first);
    octets::bytes_before(out, 0, first, first, second - first)
}

// The same; terms whose bytes stand in the message as they are written are compared there.
fn key_before(rows: &Rows, order: &[u16], out: &mut [u8], a: usize, b: usize) -> bool
    requires { TwoFit rows.now.msg.now rows.now.places.now rows.now.lengths.now rows.now.table.now order.now a b (length out.old) }
    ensures { Compared rows.now.msg.now rows.now.places.now rows.now.lengths.now rows.now.table.now order.now a b out.old result out.new }
{
    if let Some(n) = form_stands(rows, a) {
        if let Some(k) = form_stands(rows, b) {
            return octets::bytes_before(
                rows.msg,
                row::offset_in(rows.table[a]),
                n,
                row::offset_in(rows.table[b]),
                k,
            );
        }
    }
    written_before(rows, order, out, a, b)
}

// Where the key goes among those whose rows `keys` lists in rising order, found by halving.
fn place_by_halves(rows: &Rows, order: &[u16], out: &mut [u8], keys: &[u16], key: usize) -> usize
    requires { KeysFit rows.now.msg.now rows.now.places.now rows.now.lengths.now rows.now.table.now order.now keys.now (length keys.now) key (length out.old) }
    ensures { PlaceFound rows.now.msg.now rows.now.places.now rows.now.lengths.now rows.now.table.now order.now keys.now (length keys.now) key out.old result out.new }
{
    let mut low = 0;
    let mut high = keys.len();
    // A search by hand: partition_point asks that its test leave what it captures as it was, and key_before writes into out.
    while low < high {
        let middle = low + (high - low) / 2;
        let other = usize::from(keys[middle]);
        if key_before(rows, order, out, other, key) {
            low = middle + 1;
        } else {
            high = middle;
        }
    }
    low
}

// The same; past the last, if it may stand there, at the cost of one comparison.
fn find_place(rows: &Rows, order: &[u16], out: &mut [u8], keys: &[u16], key: usize) -> usize
    requires { KeysFit rows.now.msg.now rows.now.places.now rows.now.lengths.now rows.now.table.now order.now keys.now (length keys.now) key (length out.old) }
    ensures { PlaceFound rows.now.msg.now rows.now.places.now rows.now.lengths.now rows.now.table.now order.now keys.now (length keys.now) key out.old result out.new }
{
    let n = keys.len();
    if n == 0 {
        return 0;
    }
    let last = usize::from(keys[n - 1]);
    if key_before(rows, order, out, last, key) {
        return n;
    }
    place_by_halves(rows, order, out, &keys[..n - 1], key)
}

// Puts the key's row in at index `at`: the rows from there on, up to the n-th, move one up.
fn put_at(run: &mut [u16], n: usize, at: usize, key: usize)
    requires { (at ≤ n) × (n < length run.old) × (key < 65536) }
    ensures { run.new ≡ sets run.old at (key ∷ stretch run.old at (n - at)) }
{
    let mut i = n;
    // A loop and no copy_within: for the C interface the library needs memset alone (docs/API.md).
    while at < i {
        run[i] = run[i - 1];
        i -= 1;
    }
    run[at] = key as u16;
}

// Puts the rows of the n keys of a map, its first at `row`, into `run`, in rising byte order of their canonical forms; whether they stand so.
fn sort_keys(
    rows: &Rows,
    order: &[u16],
    run: &mut [u16],
    out: &mut [u8],
    row: usize,
    n: usize,
) -> bool
    requires { PairsFit rows.now.msg.now rows.now.places.now rows.now.lengths.now rows.now.table.now order.now row n (length out.old) × (n ≤ length run.old) }
    ensures { KeysSorted rows.now.msg.now rows.now.places.now rows.now.lengths.now rows.now.table.now order.now row n out.old run.new result out.new }
{
    let mut rising = true;
    let mut key = row;
    for i in 0..n {
        let at = find_place(rows, order, out, &run[..i], key);
        put_at(run, i, at, key);
        let value = key + row::size_in(rows.table[key]);
        key = value + row::size_in(rows.table[value]);
        if at < i {
            rising = false;
        }
    }
    rising
}

// Copies the rows in `run` into the slots at the keys of a map, its first at `row`, in turn.
fn fill_slots(table: &[u64], order: &mut [u16], run: &[u16], row: usize)
    requires { SlotsFit table.now row (length run.now) (length order.old) }
    ensures { SlotsFilled table.now row run.now order.old order.new }
{
    let mut key = row;
    for slot in run {
        order[key] = *slot;
        let value = key + row::size_in(table[key]);
        key = value + row::size_in(table[value]);
    }
}

// Orders the pairs of the map at the row, which has two or more; the maps in it are ordered. Where they stand in order, the slot at the first key is 0.
fn order_map(rows: &Rows, order: &mut [u16], run: &mut [u16], out: &mut [u8], row: usize)
    requires { MapFits rows.now.msg.now rows.now.places.now rows.now.lengths.now rows.now.table.now order.old row (length out.old) (length order.old) (length run.old) × HasOrder (get_or rows.now.table.now row 0) }
    ensures { MapOrdered rows.now.msg.now rows.now.places.now rows.now.lengths.now rows.now.table.now order.old row order.new out.old out.new }
{
    let n = row::parts_in(rows.table[row]) / sizes::PAIR_PARTS;
    if sort_keys(rows, order, run, out, row + 1, n) {
        // A 0 and no Option: a slot has 16 bits of fixed memory, and no key stands at row 0.
        order[row + 1] = 0;
        return;
    }
    fill_slots(rows.table, order, &run[..n], row + 1);
}

// Orders the pairs of each map in the terms whose rows are the first `count` of the table: from the last row to the first, so that the maps in a map come before it.
pub fn order_keys(rows: &Rows, count: usize, order: &mut [u16], run: &mut [u16], out: &mut [u8])
    requires { RunFits rows.now.msg.now rows.now.places.now rows.now.lengths.now rows.now.table.now count (length out.old) × SlotsFor count (length order.old) (length run.old) }
    ensures { AllInOrder rows.now.msg.now rows.now.places.now rows.now.lengths.now rows.now.table.now count order.new out.old out.new }
{
    for row in (0..count).rev() {
        if term_writer::has_order(rows.table[row]) {
            order_map(rows, order, run, out, row);
        }
    }
}
