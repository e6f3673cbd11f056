// Hashes of terms by their rows, over what the terms mean and not over how they are encoded: the order of a map's pairs does not count.
#![tactic(auto)]

ghost use Rattle.std.specs.Prelude.{◌≡◌, ◌+◌, ◌*◌, ◌-◌, ◌<◌};
ghost use Rattle.term_hash.specs.Hash.{hash_row, added, hash_rows, hash_pairs, factor_of, levels_of, hashed_rows, pass_hash, seed_of, round_hash};

use row::{kind_in, parts_in, size_in};
use row_compare::{hash_content, mix};
use term_rows::{Rows, pair_size, row_at, term_kind, unordered_rows};
use term_spec::sizes;

// In so many passes the maps in a key count down to EARLY_LEVELS alone, so that keys in keys are not hashed again at every level.
const EARLY_PASSES: usize = 2;

const EARLY_LEVELS: usize = 4;

// Rounds before LATE_ROUND go by the early passes, the others by two more, the second from LAST_ROUND on.
const LATE_ROUND: usize = 4;

const LAST_ROUND: usize = LATE_ROUND + 1;

// More levels than any term of a table has rows. Calls nest no deeper than the terms do.
const LEVELS: usize = 16384;

// Of a term of more rows only the first counts.
const MOST_ROWS: usize = 2048;

// A hash is below 2^32; its high half, below 2^16, is what a term gets.
const HASH_SIZE: u64 = 4294967296;

const HALF: u64 = 65536;

// The first factor, what the others begin with and what each of them adds; how they were chosen is in docs/DECISIONS.md.
const FIRST_FACTOR: u64 = 2554875531;

const FACTOR: u64 = 3266489908;

const FACTOR_STEP: u64 = 2135587862;

// A hash after what a row says of its term.
#[tactic(auto, using(crate::proofs::Steps::kind_small), unfolding(crate::specs::Hash::hash_row))]
fn hash_row(factor: u64, rows: &Rows, h: u64, w: u64) -> u64
    requires { (factor < 4294967296) × (h < 4294967296) }
    ensures { (result ≡ hash_row factor rows.now.msg.now rows.now.places.now rows.now.lengths.now h w) × (result < 4294967296) }
{
    let said = 16 * parts_in(w) + term_kind(kind_in(w));
    let sum = mix(factor, h, said as u64);
    hash_content(factor, rows.msg, rows.places, sum, rows.content(w))
}

// A hash to which x is added, in any order.
#[tactic(auto, using(crate::proofs::Steps::square_below), unfolding(crate::specs::Hash::added))]
fn add(h: u64, x: u64) -> u64
    requires { (h < 4294967296) × (x < 4294967296) }
    ensures { (result ≡ added h x) × (result < 4294967296) }
{
    (h + x * x / HALF) % HASH_SIZE
}

// A hash after the n rows from a row on: one after the other, but the pairs of a map in any order.
#[cycle(hash)]
fn hash_rows(factor: u64, rows: &Rows, levels: usize, h: u64, n: usize, row: usize) -> u64
    requires { (factor < 4294967296) × (h < 4294967296) × (n < 32768) × (row + 268435456 * levels + 268435456 < 4611686018427387904) }
    ensures { (result ≡ hash_rows (hash_row factor rows.now.msg.now rows.now.places.now rows.now.lengths.now) rows.now.table.now (hash_pairs (hash_row factor rows.now.msg.now rows.now.places.now rows.now.lengths.now) rows.now.table.now levels) h n 0 row) × (result < 4294967296) }
{
    let mut sum = h;
    let mut i = 0usize;
    // A while and no for: the rows of a map are stepped over at once.
    while i < n {
        let w = row_at(rows.table, row + i);
        sum = hash_row(factor, rows, sum, w);
        let unordered = unordered_rows(w);
        if unordered != 0 {
            let pairs = parts_in(w) / sizes::PAIR_PARTS;
            let next = row + i + 1;
            sum = hash_pairs(factor, rows, levels, sum, pairs, next);
        }
        i += 1 + unordered;
    }
    sum
}

// A hash to which those of the n pairs from a row on are added, maps being at most `levels` deep.
#[cycle(hash)]
fn hash_pairs(factor: u64, rows: &Rows, levels: usize, h: u64, n: usize, row: usize) -> u64
    requires { (factor < 4294967296) × (h < 4294967296) × (row + 32768 * n + 268435456 * levels < 4611686018427387904) }
    ensures { (result ≡ hash_pairs (hash_row factor rows.now.msg.now rows.now.places.now rows.now.lengths.now) rows.now.table.now levels h n row) × (result < 4294967296) }
{
    if levels == 0 {
        return h;
    }
    let mut sum = h;
    let mut at = row;
    for _ in 0..n {
        let size = pair_size(rows.table, at);
        let own = hash_rows(factor, rows, levels - 1, 0, size, at);
        sum = add(sum, own);
        at += size;
    }
    sum
}

// A factor for each pass, and for each round.
#[tactic(auto, unfolding(crate::specs::Hash::factor_of))]
fn factor_of(i: usize) -> u64
    requires { i < 65536 }
    ensures { (result ≡ factor_of i) × (result < 4294967296) }
{
    if i == 0 {
        FIRST_FACTOR
    } else {
        (FACTOR + i as u64 * FACTOR_STEP) % HASH_SIZE
    }
}

// How many levels of maps count in a pass.
#[tactic(auto, unfolding(crate::specs::Hash::levels_of))]
fn levels_of(pass: usize) -> usize
    ensures { (result ≡ levels_of pass) × (result < 16385) }
{
    if pass < EARLY_PASSES {
        EARLY_LEVELS
    } else {
        LEVELS
    }
}

// How many rows of a term of n rows count in its hash.
#[tactic(auto, unfolding(crate::specs::Hash::hashed_rows))]
fn hashed_rows(n: usize) -> usize
    ensures { (result ≡ hashed_rows n) × (result < 2049) }
{
    if n <= MOST_ROWS { n } else { 1 }
}

// The hash that a pass gives the term at a row, as a key of the map whose first key is at the row `first`.
#[tactic(auto, unfolding(crate::specs::Hash::pass_hash, crate::specs::Hash::hash_term))]
fn pass_hash(rows: &Rows, pass: usize, first: usize, row: usize) -> u64
    requires { (pass < 65536) × (row < 3458764513820540928) }
    ensures { (result ≡ pass_hash rows.now.msg.now rows.now.places.now rows.now.lengths.now rows.now.table.now first row pass) × (result < 4294967296) }
{
    let factor = factor_of(pass);
    let start = mix(factor, 0, first as u64);
    let w = row_at(rows.table, row);
    let n = hashed_rows(size_in(w));
    let sum = if n < 2 {
        hash_row(factor, rows, start, w)
    } else {
        let levels = levels_of(pass);
        hash_rows(factor, rows, levels, start, n, row)
    };
    mix(factor, sum, n as u64)
}

// What a round goes by, of the term at a row as a key of the map whose first key is at the row `first`; `seed` is what the round before went by.
#[tactic(auto, using(crate::proofs::Steps::hash_below), unfolding(crate::specs::Hash::seed_of))]
pub fn next_seed(rows: &Rows, first: usize, row: usize, round: usize, seed: u64) -> u64
    requires { (row < 3458764513820540928) × (0 < round → seed ≡ seed_of (pass_hash rows.now.msg.now rows.now.places.now rows.now.lengths.now rows.now.table.now first row) (round - 1)) }
    ensures { result ≡ seed_of (pass_hash rows.now.msg.now rows.now.places.now rows.now.lengths.now rows.now.table.now first row) round }
{
    match round {
        0 => pass_hash(rows, 0, first, row),
        1 => seed * HASH_SIZE + pass_hash(rows, 1, first, row),
        LATE_ROUND => pass_hash(rows, 2, first, row),
        LAST_ROUND => seed * HASH_SIZE + pass_hash(rows, 3, first, row),
        _ => seed,
    }
}

// The hash of a round by its seed.
#[tactic(auto, unfolding(crate::specs::Hash::round_hash))]
pub fn round_hash(seed: u64, round: usize) -> usize
    requires { round < 65536 }
    ensures { (result ≡ round_hash seed round) × (result < 65536) }
{
    if round == 0 {
        return (seed / HALF % HALF) as usize;
    }
    let factor = factor_of(round);
    let both = mix(factor, seed / HASH_SIZE, seed % HASH_SIZE);
    let turned = mix(factor, both, round as u64);
    (mix(factor, turned, round as u64) / HALF) as usize
}
