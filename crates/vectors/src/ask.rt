// A case that is asked about: its rows lent say how many rows, its output room how many offsets are asked for. First each row's number
// (`whole,N`, `float,BITS`, `neither`), then each offset's text (`message,START,LENGTH`, `list,START,LENGTH`, `empty`, with ` differs` if the
// text itself has other bytes), then each offset's mark (`latin1`, `utf8`); `refused,N,P` where a question is refused.
ghost use Rattle.io.specs.Counts.{IsPrefixLen};

use crate::case::{Case, put_differs, put_named, put_pair, put_refused, put_space};
use connection::Connection;
use queries::{
    TextAt, locate_payload, locate_standalone, mark_payload, mark_standalone, number_payload,
    number_standalone, text_payload, text_standalone,
};
use term_spec::{Mark, MarkAnswer, NumberAnswer, RowNumber};
use vector_lines::{put_byte, put_decimal, put_word};

// What one of two calls answers of the row or the text at i: the call for payloads, or the one for standalone messages.
fn asked<'a, R, P, S>(case: Case<'a>, i: usize, payload: P, standalone: S) -> R
where
    P: Fn(Connection, &'a [u8], u8, &'a [u8], &'a [u16], usize) -> R + Drop,
    S: Fn(Connection, &'a [u8], u8, &'a [u8], &'a [u16], usize) -> R + Drop,
    requires payload { P.IsAlwaysCallable payload }
    requires standalone { S.IsAlwaysCallable standalone }
{
    let connection = case.connection();
    let n = case.list_count();
    if case.is_payload() {
        return payload(connection, case.msg, n, case.places, case.lengths, i);
    }
    standalone(connection, case.msg, n, case.places, case.lengths, i)
}

// The 64 bits of a float, as a number; 0 for what is no number.
fn bits_of(x: f64) -> u64 {
    if x.is_nan() {
        return 0;
    }
    x.to_bits()
}

fn put_whole(dst: &mut [u8], at: usize, x: i64) -> usize
    ensures { IsPrefixLen result dst.new }
{
    if x < 0 {
        let a = put_word(dst, at, b"whole,-");
        return put_decimal(dst, a, x.unsigned_abs());
    }
    put_named(dst, at, b"whole", x.unsigned_abs())
}

fn put_number(dst: &mut [u8], at: usize, answer: NumberAnswer) -> usize
    ensures { IsPrefixLen result dst.new }
{
    match answer {
        Ok(RowNumber::Whole(x)) => put_whole(dst, at, x),
        Ok(RowNumber::Float(x)) => put_named(dst, at, b"float", bits_of(x)),
        Ok(RowNumber::Neither) => put_word(dst, at, b"neither"),
        Err(r) => put_refused(dst, at, r),
    }
}

// Where the text of the atom at this offset is said to stand, and whether the text itself is what stands there.
fn put_text(dst: &mut [u8], at: usize, case: Case, offset: usize) -> usize
    ensures { IsPrefixLen result dst.new }
{
    let place = asked(case, offset, locate_payload, locate_standalone);
    let text = asked(case, offset, text_payload, text_standalone);
    match place {
        Ok(TextAt::Message { start, length, .. }) => {
            let a = put_pair(dst, at, b"message", start, length);
            put_differs(dst, a, case.msg, start, length, text)
        }
        Ok(TextAt::List { start, length }) => {
            let a = put_pair(dst, at, b"list", start, length);
            put_differs(dst, a, case.places, start, length, text)
        }
        Err(_) => {
            let a = put_word(dst, at, b"empty");
            put_differs(dst, a, case.msg, 0, 0, text)
        }
    }
}

fn put_mark(dst: &mut [u8], at: usize, answer: MarkAnswer) -> usize
    ensures { IsPrefixLen result dst.new }
{
    match answer {
        Ok(Mark::Latin1) => put_word(dst, at, b"latin1"),
        Ok(Mark::Utf8) => put_word(dst, at, b"utf8"),
        Err(r) => put_refused(dst, at, r),
    }
}

// Once the line is full, nothing more is asked.
pub fn put_line(dst: &mut [u8], case: Case) -> usize
    ensures { IsPrefixLen result dst.new }
{
    let rows = vector_lines::number2(case.bytes, 1);
    let offsets = vector_lines::number3(case.bytes, 3);
    let mut next = 0usize;
    for row in 0..rows {
        if next == dst.len() {
            return next;
        }
        let a = put_space(dst, next);
        let number = asked(case, row, number_payload, number_standalone);
        next = put_number(dst, a, number);
    }
    for offset in 0..offsets {
        if next == dst.len() {
            return next;
        }
        let a = put_space(dst, next);
        next = put_text(dst, a, case, offset);
    }
    for offset in 0..offsets {
        if next == dst.len() {
            return next;
        }
        let a = put_space(dst, next);
        let mark = asked(case, offset, mark_payload, mark_standalone);
        next = put_mark(dst, a, mark);
    }
    put_byte(dst, next, b'\n')
}
