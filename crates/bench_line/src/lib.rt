// One line of the bench program: the canonical form of a standalone term in hex, or its refusal.
#![tactic(auto)]

ghost use Rattle.std.specs.Prelude.{◌≡◌, ◌+◌, ◌*◌, ◌≤◌, ◌<◌, length};
ghost use Rattle.io.specs.Counts.{IsPrefixLen};
ghost use Rattle.io.specs.Digits.{hex_digit_ascii};
ghost use Rattle.term_spec.specs.Message.{standalone};
ghost use Rattle.term_spec.specs.Writing.{write};
ghost use Rattle.layout.specs.Layout.{Put};
ghost use Rattle.bench_line.specs.Line.{hex, decimal, ok_line, refused_line, line_of, Stored, bench_answer};
ghost use Rattle.term_spec.specs.AtomList.{lent_list};

use connection::Connection;
use term_spec::{Refusal, TermsWritten, sizes};

// A hexadecimal digit, in lower case.
fn digit(d: u8) -> u8
    requires { d < 16 }
    ensures { result ≡ hex_digit_ascii d }
{
    if d < 10 { b'0' + d } else { b'a' - 10 + d }
}

// Stores the bytes in hex from `at` on; the offset past them.
fn put_hex(dst: &mut [u8], at: usize, bytes: &[u8]) -> usize
    requires { at + 2 * length bytes.now ≤ length dst.old }
    ensures { Put dst.old at (hex bytes.now) result dst.new × (result ≡ at + 2 * length bytes.now) }
{
    let mut next = at;
    for x in bytes {
        dst[next] = digit(*x / 16);
        dst[next + 1] = digit(*x % 16);
        next += 2;
    }
    next
}

// Stores a text from `at` on; the offset past it.
// By hand, as digits and numbers are: `write!` promises its bytes only where it answers Ok, and `line` promises its line of every input.
fn put_text(dst: &mut [u8], at: usize, text: &[u8]) -> usize
    requires { at + length text.now ≤ length dst.old }
    ensures { Put dst.old at text.now result dst.new }
{
    octets::copy(text, 0, dst, at, text.len());
    at + text.len()
}

// Stores n in decimal from `at` on; the offset past it.
fn put_decimal(dst: &mut [u8], at: usize, n: u64) -> usize
    requires { at + 20 ≤ length dst.old }
    ensures { Put dst.old at (decimal n) result dst.new × (result ≤ at + 20) }
{
    let mut digits = [0u8; 20];
    let k = io::decimal(n, &mut digits);
    put_text(dst, at, &digits[..k])
}

// The line of bytes written.
fn put_ok(dst: &mut [u8], bytes: &[u8]) -> usize
    requires { 2 * length bytes.now + 4 ≤ length dst.old }
    ensures { Stored (ok_line bytes.now) dst.old result dst.new }
{
    let a = put_text(dst, 0, b"ok\t");
    let b = put_hex(dst, a, bytes);
    put_text(dst, b, b"\n")
}

// The line of a refusal.
fn put_refused(dst: &mut [u8], r: Refusal) -> usize
    requires { 50 ≤ length dst.old }
    ensures { Stored (refused_line r.number r.place) dst.old result dst.new }
{
    let a = put_text(dst, 0, b"refused\t");
    let b = put_decimal(dst, a, r.number as u64);
    let c = put_text(dst, b, b"\t");
    let d = put_decimal(dst, c, r.place as u64);
    put_text(dst, d, b"\n")
}

const BOTH_FLAGS: u8 = connection::UTF8 + connection::V4_NC;

// The line of what writing answers with both flags on and these lent.
fn put_answer(
    msg: &[u8],
    places: &[u8],
    lengths: &[u16],
    scratch: &mut [u64],
    output: &mut [u8],
    dst: &mut [u8],
) -> usize
    requires { 2 * length output.old + 50 ≤ length dst.old }
    ensures { Stored (line_of (write 3 standalone (lent_list 0 places.now lengths.now) (length scratch.old) (length output.old) msg.now)) dst.old result dst.new }
{
    let connection = Connection { flags: BOTH_FLAGS };
    match writer::write_standalone(connection, msg, 0, places, lengths, scratch, output) {
        Ok(TermsWritten { length, .. }) => put_ok(dst, &output[..length]),
        Err(r) => put_refused(dst, r),
    }
}

// The longest line: two digits for each byte of the output, and room for a refusal.
pub const LINE_MOST: usize = 2 * sizes::MESSAGE_MOST + 50;

// Stores the bench's line for an input at the start of dst, and nothing else; how long it is.
pub fn line(input: &[u8], dst: &mut [u8; LINE_MOST]) -> usize
    ensures stored { Stored (line_of (bench_answer input.now)) dst.old result dst.new }
    ensures prefix_len { IsPrefixLen result dst.new }
{
    let places = [0u8; sizes::LIST_BYTES];
    let lengths = [0u16; sizes::LIST_PLACES];
    let mut scratch = [0u64; sizes::ROWS_MOST];
    let mut output = [0u8; sizes::MESSAGE_MOST];
    put_answer(input, &places, &lengths, &mut scratch, &mut output, dst)
}
