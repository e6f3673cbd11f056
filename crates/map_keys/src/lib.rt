// Terms compared by their rows, whatever their encoding, and the hash set of a map's keys.
#![tactic(auto)]

ghost use Rattle.std.specs.Prelude.{◌≡◌, ◌+◌, ◌*◌, ◌-◌, ◌/◌, ◌%◌, ◌≤◌, ◌<◌, length, take, IfSome, MatchOption};
ghost use Rattle.term_rows.specs.Rows.{same_row};
ghost use Rattle.map_keys.specs.Path.{next_place};
ghost use Rattle.map_keys.specs.Compare.{same_rows, pair_among, pair_around, pairs_among, leads, at_key, pair_marked, pairs_marked};
ghost use Rattle.map_keys.specs.Found.{same_key};
ghost use Rattle.map_keys.specs.Marks.{Reached, Marks, MarkOf};
ghost use Rattle.map_keys.specs.KeySet.{Contains, Keeps, key_hashes, key_seed, Seeded, among_rows, Absent, ContainsOrInsert};
ghost use Rattle.map_keys.specs.Lent.{maps_of, terms_of, found_of};

use row::{parts_in, size_in, whole_in};
use term_hash::{next_seed, round_hash};
use term_rows::{Rows, pair_size, row_at, unordered_rows};
use term_spec::sizes;

// More levels than any term of a table has rows. Calls nest no deeper than the terms do.
const LEVELS: usize = 16384;

// From so many pairs on a map's keys are looked up in the set.
const MANY_PAIRS: usize = 32;

// So many keys of a map are marked.
const MARKS: usize = 64;

// So many hashes there are of 16 bits.
const HASHES: usize = 65536;

// So many neighbouring slots a round looks at.
const WINDOW: usize = 2;

// The path of a key has so many steps, in rounds of WINDOW.
const PATH: usize = 256;

// The rows of terms, and the slots of the set, which may name some of them.
#[derive(Clone, Copy)]
struct Keys<'a> {
    rows: Rows<'a>,
    slots: &'a [u16],
}

// Whether the n rows from a on mean the same as those from b on: row by row, but maps that have pairs as wholes.
#[cycle(compare)]
fn same_rows(keys: &Keys, levels: usize, n: usize, a: usize, b: usize) -> bool
    requires { (n < 16384) × (a < 2305843009213693952) × (b < 2305843009213693952) }
    ensures { result ≡ same_rows (same_row keys.now.rows.msg.now keys.now.rows.places.now keys.now.rows.lengths.now) keys.now.rows.table.now (maps_of keys.now levels) n 0 a b }
{
    let mut i = 0usize;
    // A while and no for: the rows of a map are stepped over at once.
    while i < n {
        let v = row_at(keys.rows.table, a + i);
        let w = row_at(keys.rows.table, b + i);
        if !keys.rows.same_row(v, w) {
            return false;
        }
        let unordered = unordered_rows(v);
        if unordered != 0 && !same_maps(keys, levels, a + i, b + i) {
            return false;
        }
        i += 1 + unordered;
    }
    true
}

// Whether the terms whose rows start at a and b mean the same, maps being at most `levels` deep in them.
#[cycle(compare)]
#[tactic(auto, unfolding(crate::specs::Compare::same_from))]
fn same_terms(keys: &Keys, levels: usize, a: usize, b: usize) -> bool
    ensures { result ≡ terms_of keys.now levels a b }
{
    let (Some(v), Some(w)) = (keys.rows.table.get(a), keys.rows.table.get(b)) else {
        return false;
    };
    let n = size_in(*v);
    n == size_in(*w) && same_rows(keys, levels, n, a, b)
}

// Whether the maps at a and b, of the same number of pairs, have the same pairs.
#[cycle(compare)]
fn same_maps(keys: &Keys, levels: usize, a: usize, b: usize) -> bool
    requires { (a < 2305843009213710336) × (b < 2305843009213710336) }
    ensures { result ≡ maps_of keys.now levels a b }
{
    let v = row_at(keys.rows.table, a);
    let size = size_in(v);
    if levels == 0 || size != size_in(row_at(keys.rows.table, b)) {
        return false;
    }
    let n = parts_in(v) / sizes::PAIR_PARTS;
    let deep = levels - 1;
    let x = a + 1;
    let y = b + 1;
    if n < MANY_PAIRS {
        pairs_among(keys, deep, n, x, y)
    } else {
        many_among(keys, deep, n, x, y, b + size)
    }
}

// Whether each of the n pairs from a on is one of the n from b on. A pair is looked for from the place on that it has itself, and then from b on.
#[cycle(compare)]
fn pairs_among(keys: &Keys, levels: usize, n: usize, a: usize, b: usize) -> bool
    requires { (a + 32768 * n < 4611686018427387904) × (b + 32768 * n < 4611686018427387904) }
    ensures { result ≡ pairs_among keys.now.rows.table.now (terms_of keys.now levels) n 0 a b b }
{
    let mut x = a;
    let mut y = b;
    for i in 0..n {
        if !pair_around(keys, levels, n - i, i, x, y, b) {
            return false;
        }
        x += pair_size(keys.rows.table, x);
        y += pair_size(keys.rows.table, y);
    }
    true
}

// Whether the pair from k on is one of the n from `at` on, or of the m before those, which start at b.
#[cycle(compare)]
#[tactic(auto, unfolding(crate::specs::Compare::pair_around))]
fn pair_around(
    keys: &Keys,
    levels: usize,
    n: usize,
    m: usize,
    k: usize,
    at: usize,
    b: usize,
) -> bool
    requires { (k < 4611686018427387904) × (at + 32768 * n < 4611686018427387904) × (b + 32768 * m < 4611686018427387904) }
    ensures { result ≡ pair_around keys.now.rows.table.now (terms_of keys.now levels) n m k at b }
{
    pair_among(keys, levels, n, k, at) || pair_among(keys, levels, m, k, b)
}

// Whether of the n pairs from `at` on the first with the key at k has the value after that key.
#[cycle(compare)]
fn pair_among(keys: &Keys, levels: usize, n: usize, k: usize, at: usize) -> bool
    requires { (k < 4611686018427387904) × (at + 32768 * n < 4611686018427387904) }
    ensures { result ≡ pair_among keys.now.rows.table.now (terms_of keys.now levels) n k at }
{
    let mut x = at;
    for _ in 0..n {
        if same_terms(keys, levels, k, x) {
            let v = k + size_in(row_at(keys.rows.table, k));
            let w = x + size_in(row_at(keys.rows.table, x));
            return same_terms(keys, levels, v, w);
        }
        x += pair_size(keys.rows.table, x);
    }
    false
}

// Whether steps over pairs from the row `from` on lead to the row.
#[tactic(auto, using(crate::proofs::Marks::led_end, crate::proofs::Marks::led_stuck, crate::proofs::Marks::led_on))]
fn leads_to(table: &[u64], from: usize, row: usize) -> bool
    requires { row < 65536 }
    ensures { result ≡ leads table.now from row }
{
    let mut at = from;
    // A while and no for: each step is as long as the pair there.
    while at < row {
        let step = pair_size(table, at);
        if step == 0 {
            return false;
        }
        at += step;
    }
    at == row
}

// The row after n pairs.
#[tactic(auto, using(crate::proofs::Marks::reached_next))]
fn pairs_after(table: &[u64], n: usize, from: usize) -> usize
    requires { from + 32768 * n < 4611686018427387904 }
    ensures { Reached table.now from result × (result ≤ from + 32768 * n) }
{
    let mut at = from;
    for _ in 0..n {
        at += pair_size(table, at);
    }
    at
}

// Marks keys of the n pairs from the row b on, at even distances, and says how many are marked.
fn mark_keys(table: &[u64], n: usize, b: usize, marks: &mut [u16]) -> usize
    requires { (n < 4096) × (b < 4611686018427387904) }
    ensures { (result ≤ length marks.new) × Marks table.now b (take result marks.new) }
{
    let step = n / MARKS + 1;
    let mut at = b;
    for i in 0..marks.len() {
        let Ok(row) = u16::try_from(at) else {
            return i;
        };
        marks[i] = row;
        at = pairs_after(table, step, at);
    }
    marks.len()
}

// The last mark that is not past the row, or b, the first key's row.
#[tactic(auto, using(crate::proofs::Marks::mark_here))]
fn mark_before(marks: &[u16], b: usize, row: usize) -> usize
    requires { b ≤ row }
    ensures { MarkOf marks.now b result × (result ≤ row) }
{
    let mut found = b;
    for mark in marks {
        let mark = usize::from(*mark);
        if row < mark {
            return found;
        }
        found = mark;
    }
    found
}

// Whether the row is that of a key of the pairs from the row b on, before the row `end`.
#[tactic(auto, using(crate::proofs::Marks::key_led), unfolding(crate::specs::Compare::at_key))]
fn at_key(table: &[u64], marks: &[u16], b: usize, end: usize, row: usize) -> bool
    requires { (row < 65536) × Marks table.now b marks.now }
    ensures { result ≡ at_key table.now b end row }
{
    b <= row && row < end && leads_to(table, mark_before(marks, b, row), row)
}

// Whether the row is that of a key of the map whose first key is at the row `first`, and means the same as that at the row `key`.
#[cycle(compare)]
#[tactic(auto, unfolding(crate::specs::Found::same_key))]
fn same_key(keys: &Keys, levels: usize, first: usize, key: usize, row: usize) -> bool
    ensures { result ≡ same_key keys.now.rows.table.now (terms_of keys.now levels) first key row }
{
    whole_in(row_at(keys.rows.table, row)) == first && same_terms(keys, levels, key, row)
}

// The row of the key in a slot. In the lent memory its row + 1 stands there, and 0 where there is none.
fn key_in(slot: u16) -> Option<usize>
    ensures { MatchOption result (slot ≡ 0) (λ row. row + 1 ≡ slot) }
{
    usize::from(slot).checked_sub(1)
}

// The row of such a key as the slots name it: a hint, for nothing is known of the slots.
#[cycle(compare)]
fn found_key(keys: &Keys, levels: usize, first: usize, key: usize) -> Option<usize>
    requires { key < 3458764513820540928 }
    ensures found { result ≡ found_of keys.now levels first key }
    ensures small { IfSome result (λ row. row < 65536) }
{
    let n = keys.slots.len();
    if n == 0 {
        return None;
    }
    let mut seed = 0u64;
    let mut i = 0usize;
    for d in 0..PATH {
        seed = path_seed(&keys.rows, first, key, d, seed);
        i = path_slot(n, seed, d, i);
        let row = key_in(keys.slots[i])?;
        if same_key(keys, levels, first, key, row) {
            return Some(row);
        }
    }
    None
}

// Whether the pair from k on is one of the n from b on, which end before the row `end`: where the hint is the row of a key of theirs, its value decides.
#[cycle(compare)]
#[tactic(auto, using(crate::proofs::Found::found_same), unfolding(crate::specs::Compare::pair_marked, crate::specs::Compare::pair_named))]
fn pair_marked(
    keys: &Keys,
    marks: &[u16],
    levels: usize,
    n: usize,
    k: usize,
    b: usize,
    end: usize,
) -> bool
    requires { (k < 3458764513820540928) × (b + 32768 * n < 4611686018427387904) × Marks keys.now.rows.table.now b marks.now }
    ensures { result ≡ pair_marked keys.now.rows.table.now (terms_of keys.now levels) (found_of keys.now levels) n k b end }
{
    match found_key(keys, levels, b, k) {
        Some(x) if at_key(keys.rows.table, marks, b, end, x) => {
            let value = k + size_in(row_at(keys.rows.table, k));
            let found = x + size_in(row_at(keys.rows.table, x));
            same_terms(keys, levels, value, found)
        }
        _ => pair_among(keys, levels, n, k, b),
    }
}

// Whether each of the n pairs from a on is one of the n from b on, which end before the row `end` and of whose keys some are marked.
#[cycle(compare)]
fn pairs_marked(
    keys: &Keys,
    marks: &[u16],
    levels: usize,
    n: usize,
    a: usize,
    b: usize,
    end: usize,
) -> bool
    requires { (a + 32768 * n < 3458764513820540928) × (b + 32768 * n < 4611686018427387904) × Marks keys.now.rows.table.now b marks.now }
    ensures { result ≡ pairs_marked keys.now.rows.table.now (terms_of keys.now levels) (found_of keys.now levels) n n a b end }
{
    let mut x = a;
    for _ in 0..n {
        if !pair_marked(keys, marks, levels, n, x, b, end) {
            return false;
        }
        x += pair_size(keys.rows.table, x);
    }
    true
}

// The same, with marks of its own.
#[cycle(compare)]
fn many_among(keys: &Keys, levels: usize, n: usize, a: usize, b: usize, end: usize) -> bool
    requires { (n < 4096) × (a + 32768 * n < 3458764513820540928) × (b + 32768 * n < 4611686018427387904) }
    ensures { result ≡ pairs_marked keys.now.rows.table.now (terms_of keys.now levels) (found_of keys.now levels) n n a b end }
{
    let mut marks = [0u16; MARKS];
    let count = mark_keys(keys.rows.table, n, b, &mut marks);
    let marks = &marks[..count];
    pairs_marked(keys, marks, levels, n, a, b, end)
}

// Whether the term at the row `key` means the same as a key of the pairs from the row `first` on.
fn key_among(keys: &Keys, first: usize, key: usize) -> bool
    ensures { result ≡ among_rows keys.now.rows.msg.now keys.now.rows.places.now keys.now.rows.lengths.now keys.now.rows.table.now keys.now.slots.now first key }
{
    if keys.rows.table.len() <= key {
        return false;
    }
    let mut at = first;
    // A while and no for: each step is as long as the pair there.
    while at < key {
        if same_terms(keys, LEVELS, key, at) {
            return true;
        }
        let step = pair_size(keys.rows.table, at);
        if step == 0 {
            return false;
        }
        at += step;
    }
    false
}

// The slot to which a hash points, of n.
#[tactic(auto, using(crate::proofs::Slots::pointed_is, crate::proofs::Slots::pointed_small))]
fn hashed_slot(hash: usize, n: usize) -> usize
    requires { (hash < 65536) × (0 < n) }
    ensures { (result ≡ hash * n / 65536) × (result < n) }
{
    n / HASHES * hash + n % HASHES * hash / HASHES
}

// The slot after slot i, of n; after the last comes the first.
fn next_slot(i: usize, n: usize) -> usize
    requires { i < n }
    ensures { (result ≡ (i + 1) % n) × (result < n) }
{
    if i + 1 == n { 0 } else { i + 1 }
}

// What the round of step d of a key's path goes by; `seed` is what that of the step before went by.
#[tactic(auto, unfolding(crate::specs::KeySet::key_seed))]
fn path_seed(rows: &Rows, first: usize, key: usize, d: usize, seed: u64) -> u64
    requires { (key < 3458764513820540928) × Seeded rows.now.msg.now rows.now.places.now rows.now.lengths.now rows.now.table.now first key d seed }
    ensures { result ≡ key_seed rows.now.msg.now rows.now.places.now rows.now.lengths.now rows.now.table.now first key (d / 2) }
{
    if d % WINDOW == 0 {
        next_seed(rows, first, key, d / WINDOW, seed)
    } else {
        seed
    }
}

// The slot at step d of a path, of n; i is the one at the step before. Each round starts at a slot of its own.
#[tactic(auto, unfolding(crate::specs::Path::next_place))]
fn path_slot(n: usize, seed: u64, d: usize, i: usize) -> usize
    requires { (0 < n) × (d < 256) × (0 < d → i < n) }
    ensures { (result ≡ next_place seed n d i) × (result < n) }
{
    if d % WINDOW == 0 {
        hashed_slot(round_hash(seed, d / WINDOW), n)
    } else {
        next_slot(i, n)
    }
}

// The first empty slot of a key's path, if there is one and no row before it means the same as the key.
fn free_slot(keys: &Keys, first: usize, key: usize) -> Option<usize>
    requires { (0 < length keys.now.slots.now) × (key < 65535) }
    ensures { IfSome result (λ i. (i < length keys.now.slots.now) × Absent keys.now.rows.msg.now keys.now.rows.places.now keys.now.rows.lengths.now keys.now.rows.table.now first key keys.now.slots.now i) }
{
    let n = keys.slots.len();
    let mut seed = 0u64;
    let mut i = 0usize;
    for d in 0..PATH {
        seed = path_seed(&keys.rows, first, key, d, seed);
        i = path_slot(n, seed, d, i);
        let Some(row) = key_in(keys.slots[i]) else {
            return Some(i);
        };
        if same_key(keys, LEVELS, first, key, row) {
            return None;
        }
    }
    None
}

// Inserts the key's row in the first empty slot of its path, if there is one.
fn insert(rows: &Rows, slots: &mut [u16], first: usize, key: usize)
    requires { (0 < length slots.old) × (key < 65535) }
    ensures { Keeps slots.old slots.new × Contains slots.new (key_hashes rows.now.msg.now rows.now.places.now rows.now.lengths.now rows.now.table.now first key) key }
{
    let n = slots.len();
    let mut seed = 0u64;
    let mut i = 0usize;
    for d in 0..PATH {
        seed = path_seed(rows, first, key, d, seed);
        i = path_slot(n, seed, d, i);
        if key_in(slots[i]).is_none() {
            slots[i] = (key + 1) as u16;
            return;
        }
    }
}

// Whether the key at the row `key` means the same as a key of the pairs from the row `first` on; if not, it is inserted. All earlier keys are compared only where its path does not rule it out.
pub fn contains_or_insert(
    msg: &[u8],
    places: &[u8],
    lengths: &[u16],
    table: &[u64],
    slots: &mut [u16],
    first: usize,
    key: usize,
) -> bool
    requires { (0 < length slots.old) × (key < 65535) }
    ensures { ContainsOrInsert msg.now places.now lengths.now table.now first key slots.old result slots.new }
{
    let rows = Rows {
        msg,
        places,
        lengths,
        table,
    };
    let keys = Keys { rows, slots };
    if let Some(i) = free_slot(&keys, first, key) {
        slots[i] = (key + 1) as u16;
        return false;
    }
    if key_among(&keys, first, key) {
        return true;
    }
    insert(&rows, slots, first, key);
    false
}
