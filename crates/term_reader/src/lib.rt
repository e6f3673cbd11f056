// Reading terms into a table of rows: a term's parts are read by the same rules as the whole.
#![tactic(auto)]

ghost use Rattle.std.specs.Prelude.{◌≡◌, true, ◌+◌, ◌/◌, ◌%◌, ◌≤◌, ◌<◌, min, length, replicate};
ghost use Rattle.std.proofs.lemmas.List.Edits.{sets};
ghost use Rattle.term_spec.specs.Head.{any, characters, elements, pairs};
ghost use Rattle.context.specs.Given.{list_in, given_in};
ghost use Rattle.term_head.specs.Code.{wanted_of};
ghost use Rattle.term_reader.specs.Code.{asked, character_words, Room, HeadRead, LastAt, QuickAt, CharactersRead, TermRead, RunRead, BodyRead, InnerRead, PartsRead, ManyRead, TailRead, LastRead, CommonRead};

use context::Context;
use term_head::{Head, Later, Wanted};
use term_spec::{Refusal, kinds, refusals, sizes};

// Of the parts that are wanted, so many are atoms at most.
const WANTED_ATOMS: usize = 2;
// The bytes of a 107 before its characters.
const STRING_HEAD: usize = 3;

// Where reading a term, or some terms in turn, has come to: the offset and the row past them.
#[derive(Clone, Copy)]
pub struct Reached {
    pub next: usize,
    pub rows: usize,
}

// What reading the parts of a term comes to: the offset and the row past them, their number, and the term's kind.
#[derive(Clone, Copy)]
pub struct Parts {
    pub next: usize,
    pub rows: usize,
    pub parts: usize,
    pub kind: usize,
}

// A term. `whole` is the row of its whole plus 1, or 0; `left` the levels that are left for it.
// `whole` is a number and no Option: docs/ROWS.md has it so in the row's word, which C reads.
#[cycle(read)]
fn read_term(
    c: &Context,
    table: &mut [u64],
    seen: &mut [u16],
    at: usize,
    row: usize,
    whole: usize,
    left: usize,
    wanted: Wanted,
) -> Result<Reached, Refusal>
    requires room { Room c.now.msg.now (list_in c.now) table.old c.now.capacity at row whole }
    requires seen_nonzero { 0 < length seen.old }
    ensures { TermRead c.now.msg.now (given_in c.now) c.now.capacity left at row whole table.old seen.old (wanted_of wanted) result table.new seen.new }
{
    if let Some(word) = term_head::quick_at(c, at, wanted) {
        return read_quick(c, table, seen, at, row, whole, left, wanted, word);
    }
    let opening = term_head::read_opening(c, at, wanted)?;
    read_body(
        c,
        table,
        seen,
        opening.place,
        opening.head,
        row,
        whole,
        left,
    )
}

// A common term, whose head is in `word`. Its own row is stored after its parts.
#[cycle(read)]
fn read_quick(
    c: &Context,
    table: &mut [u64],
    seen: &mut [u16],
    at: usize,
    row: usize,
    whole: usize,
    left: usize,
    wanted: Wanted,
    word: usize,
) -> Result<Reached, Refusal>
    requires room { Room c.now.msg.now (list_in c.now) table.old c.now.capacity at row whole × QuickAt c.now.msg.now (given_in c.now) (wanted_of wanted) at word }
    requires seen_nonzero { 0 < length seen.old }
    ensures { TermRead c.now.msg.now (given_in c.now) c.now.capacity left at row whole table.old seen.old (wanted_of wanted) result table.new seen.new }
{
    if left == 0 {
        return Err(Refusal {
            number: refusals::DEPTH,
            place: at,
        });
    }
    if !c.has_row(row) {
        return Err(Refusal {
            number: refusals::ROWS,
            place: at,
        });
    }
    let inner = read_common(c, table, seen, row + 1, left - 1, word)?;
    table[row] = row::pack(inner.kind, at, whole, inner.parts, inner.rows - row);
    Ok(Reached {
        next: inner.next,
        rows: inner.rows,
    })
}

// The parts of a common term, whose head is in `word`, from `row` on; their whole is the row before.
#[cycle(read)]
fn read_common(
    c: &Context,
    table: &mut [u64],
    seen: &mut [u16],
    row: usize,
    deep: usize,
    word: usize,
) -> Result<Parts, Refusal>
    requires room { Room c.now.msg.now (list_in c.now) table.old c.now.capacity (word / 16 % 131072) row row }
    requires seen_nonzero { 0 < length seen.old }
    ensures { CommonRead c.now.msg.now (given_in c.now) c.now.capacity deep row row table.old seen.old word result table.new seen.new }
{
    let kind = word % term_head::WORD_KINDS;
    let at = word / term_head::WORD_KINDS % term_head::WORD_OFFSETS;
    let count = word / term_head::WORD_PARTS;
    if count == 0 {
        return Ok(Parts {
            next: at,
            rows: row,
            parts: 0,
            kind,
        });
    }
    if kind == term_head::WORD_ELEMENTS {
        return read_list(c, table, seen, at, row, deep, count);
    }
    if kind == term_head::WORD_PAIRS {
        return read_pairs(c, table, seen, at, row, deep, count);
    }
    let run = read_run(c, table, seen, at, row, row, deep, Wanted::Any, count)?;
    Ok(Parts {
        next: run.next,
        rows: run.rows,
        parts: count,
        kind,
    })
}

// The term at `place`, whose tag and fields are read. Its own row is stored after its parts.
#[cycle(read)]
fn read_body(
    c: &Context,
    table: &mut [u64],
    seen: &mut [u16],
    place: usize,
    head: Head,
    row: usize,
    whole: usize,
    left: usize,
) -> Result<Reached, Refusal>
    requires room { Room c.now.msg.now (list_in c.now) table.old c.now.capacity place row whole × HeadRead c.now.msg.now place head }
    requires seen_nonzero { 0 < length seen.old }
    ensures { BodyRead c.now.msg.now (given_in c.now) c.now.capacity left place row whole table.old seen.old head result table.new seen.new }
{
    if left == 0 {
        return Err(Refusal {
            number: refusals::DEPTH,
            place,
        });
    }
    if !c.has_row(row) {
        return Err(Refusal {
            number: refusals::ROWS,
            place,
        });
    }
    let inner = read_inner(c, table, seen, place, head, row + 1, left - 1)?;
    table[row] = row::pack(inner.kind, place, whole, inner.parts, inner.rows - row);
    Ok(Reached {
        next: inner.next,
        rows: inner.rows,
    })
}

// The parts of the term at `place`, from `row` on; their whole is the row before.
#[cycle(read)]
fn read_inner(
    c: &Context,
    table: &mut [u64],
    seen: &mut [u16],
    place: usize,
    head: Head,
    row: usize,
    deep: usize,
) -> Result<Parts, Refusal>
    requires room { Room c.now.msg.now (list_in c.now) table.old c.now.capacity place row row × HeadRead c.now.msg.now place head }
    requires seen_nonzero { 0 < length seen.old }
    ensures { InnerRead c.now.msg.now (given_in c.now) c.now.capacity deep place row row table.old seen.old head result table.new seen.new }
{
    match head {
        Head::Parts {
            kind,
            wanted,
            count,
            later,
            next,
        } => read_parts(
            c, table, seen, place, next, row, deep, kind, wanted, count, later,
        ),
        Head::Characters { count, next } => {
            read_characters(c, table, place, count, next, row, row, deep, 0)
        }
        Head::Elements { count, next } => { read_list(c, table, seen, next, row, deep, count) }
        Head::Pairs { count, next } => { read_pairs(c, table, seen, next, row, deep, count) }
    }
}

// The wanted parts, then `count` parts of any kind, then the later fields.
#[cycle(read)]
fn read_parts(
    c: &Context,
    table: &mut [u64],
    seen: &mut [u16],
    place: usize,
    at: usize,
    row: usize,
    deep: usize,
    kind: usize,
    wanted: usize,
    count: usize,
    later: Later,
) -> Result<Parts, Refusal>
    requires room { Room c.now.msg.now (list_in c.now) table.old c.now.capacity at row row }
    requires seen_nonzero { 0 < length seen.old }
    ensures { PartsRead c.now.msg.now (given_in c.now) c.now.capacity deep at row row table.old seen.old place kind wanted count later result table.new seen.new }
{
    let first = read_wanted(c, table, seen, at, row, row, deep, wanted)?;
    let others = read_more(
        c,
        table,
        seen,
        first.next,
        first.rows,
        row,
        deep,
        Wanted::Any,
        count,
    )?;
    let next = term_head::read_later(c, others.next, place, later)?;
    Ok(Parts {
        next,
        rows: others.rows,
        parts: wanted + count,
        kind,
    })
}

// Terms as in a run, where there are any: most terms that go this way have none, and an empty run is no call.
#[cycle(read)]
fn read_more(
    c: &Context,
    table: &mut [u64],
    seen: &mut [u16],
    at: usize,
    row: usize,
    whole: usize,
    deep: usize,
    wanted: Wanted,
    count: usize,
) -> Result<Reached, Refusal>
    requires room { Room c.now.msg.now (list_in c.now) table.old c.now.capacity at row whole }
    requires seen_nonzero { 0 < length seen.old }
    ensures { RunRead c.now.msg.now (given_in c.now) c.now.capacity deep at row whole table.old seen.old count (replicate count (wanted_of wanted)) result table.new seen.new }
{
    if count == 0 {
        return Ok(Reached {
            next: at,
            rows: row,
        });
    }
    read_run(c, table, seen, at, row, whole, deep, wanted, count)
}

// `wanted` parts, each an atom; of three the last is an arity. One alone is a node: most are read here, without a call for a run.
#[cycle(read)]
fn read_wanted(
    c: &Context,
    table: &mut [u64],
    seen: &mut [u16],
    at: usize,
    row: usize,
    whole: usize,
    deep: usize,
    wanted: usize,
) -> Result<Reached, Refusal>
    requires room { Room c.now.msg.now (list_in c.now) table.old c.now.capacity at row whole }
    requires seen_nonzero { 0 < length seen.old }
    ensures { RunRead c.now.msg.now (given_in c.now) c.now.capacity deep at row whole table.old seen.old wanted (asked wanted) result table.new seen.new }
{
    if wanted == 1 {
        if let Some(word) = term_head::node_at(c.msg, at)
            && is_leaf(c, word, deep, row)
        {
            table[row] = row::pack(word % term_head::WORD_KINDS, at, whole, 0, 1);
            return Ok(Reached {
                next: word / term_head::WORD_KINDS,
                rows: row + 1,
            });
        }
    }
    let atoms = wanted.min(WANTED_ATOMS);
    let run = read_run(c, table, seen, at, row, whole, deep, Wanted::Atom, atoms)?;
    read_more(
        c,
        table,
        seen,
        run.next,
        run.rows,
        whole,
        deep,
        Wanted::Arity,
        wanted - atoms,
    )
}

// Whether a word is the head of a term without parts, and there are a level and a row for it.
fn is_leaf(c: &Context, word: usize, deep: usize, row: usize) -> bool
    ensures { result ≡ true → (word < 2097152) × (deep ≡ 0 → ⊥) × (row < c.now.capacity) }
{
    word < term_head::WORD_PARTS && deep != 0 && c.has_row(row)
}

// `count` terms in turn.
#[cycle(read)]
pub fn read_run(
    c: &Context,
    table: &mut [u64],
    seen: &mut [u16],
    at: usize,
    row: usize,
    whole: usize,
    deep: usize,
    wanted: Wanted,
    count: usize,
) -> Result<Reached, Refusal>
    requires room { Room c.now.msg.now (list_in c.now) table.old c.now.capacity at row whole }
    requires seen_nonzero { 0 < length seen.old }
    ensures { RunRead c.now.msg.now (given_in c.now) c.now.capacity deep at row whole table.old seen.old count (replicate count (wanted_of wanted)) result table.new seen.new }
{
    let mut at_now = at;
    let mut row_now = row;
    for _i in 0..count {
        if let Some(word) = term_head::leaf_at(c.msg, at_now, wanted)
            && is_leaf(c, word, deep, row_now)
        {
            table[row_now] = row::pack(word % term_head::WORD_KINDS, at_now, whole, 0, 1);
            at_now = word / term_head::WORD_KINDS;
            row_now += 1;
            continue;
        }
        let term = read_term(c, table, seen, at_now, row_now, whole, deep, wanted)?;
        at_now = term.next;
        row_now = term.rows;
    }
    Ok(Reached {
        next: at_now,
        rows: row_now,
    })
}

// The rows of `count` characters, the first one's byte at `at`.
fn put_characters(table: &mut [u64], at: usize, count: usize, row: usize, whole: usize)
    requires { (row + count ≤ length table.old) × (row + count ≤ 8192) × (at + count ≤ 65536) × (whole ≤ row) }
    ensures { table.new ≡ sets table.old row (character_words whole at count) }
{
    for i in 0..count {
        table[row + i] = row::pack(kinds::CHARACTER, at + i, whole, 0, 1);
    }
}

// The characters of the 107 at `place`, or no element where `count` is 0.
fn read_characters(
    c: &Context,
    table: &mut [u64],
    place: usize,
    count: usize,
    next: usize,
    row: usize,
    whole: usize,
    deep: usize,
    before: usize,
) -> Result<Parts, Refusal>
    requires { (c.now.capacity ≤ 8192) × (c.now.capacity ≤ length table.old) × (row ≤ c.now.capacity) × (whole ≤ row) × (before ≤ row) × ((count ≡ 0 → ⊥) → place + 3 + count ≤ 65536) }
    ensures { CharactersRead c.now.capacity deep place count next before row whole table.old result table.new }
{
    if count == 0 {
        return Ok(Parts {
            next,
            rows: row,
            parts: before,
            kind: kinds::LIST,
        });
    }
    if deep == 0 {
        return Err(Refusal {
            number: refusals::DEPTH,
            place,
        });
    }
    if c.capacity - row < count {
        return Err(Refusal {
            number: refusals::ROWS,
            place,
        });
    }
    put_characters(table, place + STRING_HEAD, count, row, whole);
    Ok(Parts {
        next,
        rows: row + count,
        parts: before + count,
        kind: kinds::LIST,
    })
}

// The elements of a 108, and what its tail joins on.
#[cycle(read)]
fn read_list(
    c: &Context,
    table: &mut [u64],
    seen: &mut [u16],
    at: usize,
    row: usize,
    deep: usize,
    count: usize,
) -> Result<Parts, Refusal>
    requires room { Room c.now.msg.now (list_in c.now) table.old c.now.capacity at row row }
    requires seen_nonzero { 0 < length seen.old }
    ensures { ManyRead c.now.msg.now (given_in c.now) c.now.capacity deep at row row table.old seen.old (elements count) result table.new seen.new }
{
    let run = read_run(c, table, seen, at, row, row, deep, Wanted::Any, count)?;
    read_tail(c, table, seen, run.next, run.rows, row, deep, count)
}

// What follows the elements of a 108, `before` of which are read: tails that are 108s are joined on, up to one that is not.
#[cycle(read)]
fn read_tail(
    c: &Context,
    table: &mut [u64],
    seen: &mut [u16],
    at: usize,
    row: usize,
    whole: usize,
    deep: usize,
    before: usize,
) -> Result<Parts, Refusal>
    requires room { Room c.now.msg.now (list_in c.now) table.old c.now.capacity at row whole × (before ≤ row) }
    requires seen_nonzero { 0 < length seen.old }
    ensures { TailRead c.now.msg.now (given_in c.now) c.now.capacity deep at row whole table.old seen.old before result table.new seen.new }
{
    let mut at_now = at;
    let mut row_now = row;
    let mut sum = before;
    // A loop and no for: how many tails are joined is known only when they have been read.
    loop {
        let place = term_head::skip_empty(c.msg, at_now);
        if term_head::nil_at(c.msg, place) {
            return Ok(Parts {
                next: place + 1,
                rows: row_now,
                parts: sum,
                kind: kinds::LIST,
            });
        }
        let Some(count) = term_head::elements_at(c.msg, place) else {
            return read_last(c, table, seen, place, row_now, whole, deep, sum);
        };
        let run = read_run(
            c,
            table,
            seen,
            place + term_head::LIST_HEAD,
            row_now,
            whole,
            deep,
            Wanted::Any,
            count,
        )?;
        at_now = run.next;
        row_now = run.rows;
        sum += count;
    }
}

// The tail of a list that is joined no further: the empty list or a 107 ends a proper list.
#[cycle(read)]
fn read_last(
    c: &Context,
    table: &mut [u64],
    seen: &mut [u16],
    at: usize,
    row: usize,
    whole: usize,
    deep: usize,
    before: usize,
) -> Result<Parts, Refusal>
    requires room { Room c.now.msg.now (list_in c.now) table.old c.now.capacity at row whole × LastAt c.now.msg.now at × (before ≤ row) }
    requires seen_nonzero { 0 < length seen.old }
    ensures { LastRead c.now.msg.now (given_in c.now) c.now.capacity deep at row whole table.old seen.old before result table.new seen.new }
{
    let opening = term_head::read_opening(c, at, Wanted::Any)?;
    let place = opening.place;
    match opening.head {
        Head::Characters { count, next } => {
            read_characters(c, table, place, count, next, row, whole, deep, before)
        }
        head => {
            let last = read_body(c, table, seen, place, head, row, whole, deep)?;
            Ok(Parts {
                next: last.next,
                rows: last.rows,
                parts: before + 1,
                kind: kinds::IMPROPER_LIST,
            })
        }
    }
}

// A key or a value of a map: the commonest ones, without parts, are read right here.
#[inline(always)]
#[cycle(read)]
fn read_entry(
    c: &Context,
    table: &mut [u64],
    seen: &mut [u16],
    at: usize,
    row: usize,
    whole: usize,
    deep: usize,
) -> Result<Reached, Refusal>
    requires room { Room c.now.msg.now (list_in c.now) table.old c.now.capacity at row whole }
    requires seen_nonzero { 0 < length seen.old }
    ensures { TermRead c.now.msg.now (given_in c.now) c.now.capacity deep at row whole table.old seen.old any result table.new seen.new }
{
    if let Some(word) = term_head::entry_at(c.msg, at)
        && is_leaf(c, word, deep, row)
    {
        table[row] = row::pack(word % term_head::WORD_KINDS, at, whole, 0, 1);
        return Ok(Reached {
            next: word / term_head::WORD_KINDS,
            rows: row + 1,
        });
    }
    read_run(c, table, seen, at, row, whole, deep, Wanted::Any, 1)
}

// `count` keys, each with its value after it. A key is judged before its value is read.
#[cycle(read)]
fn read_pairs(
    c: &Context,
    table: &mut [u64],
    seen: &mut [u16],
    at: usize,
    row: usize,
    deep: usize,
    count: usize,
) -> Result<Parts, Refusal>
    requires room { Room c.now.msg.now (list_in c.now) table.old c.now.capacity at row row }
    requires seen_nonzero { 0 < length seen.old }
    ensures { ManyRead c.now.msg.now (given_in c.now) c.now.capacity deep at row row table.old seen.old (pairs count) result table.new seen.new }
{
    let mut at_now = at;
    let mut row_now = row;
    for _i in 0..count {
        let key = read_entry(c, table, seen, at_now, row_now, row, deep)?;
        if map_keys::contains_or_insert(c.msg, c.places, c.lengths, table, seen, row, row_now) {
            return Err(Refusal {
                number: refusals::KEY,
                place: at_now,
            });
        }
        let value = read_entry(c, table, seen, key.next, key.rows, row, deep)?;
        at_now = value.next;
        row_now = value.rows;
    }
    Ok(Parts {
        next: at_now,
        rows: row_now,
        parts: count * sizes::PAIR_PARTS,
        kind: kinds::MAP,
    })
}
