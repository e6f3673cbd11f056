// A case that is written: `refused N P`, or `ok HEX`; ` touched` after it if a byte of the output past those written changed, and ` dirty` at
// the end if a word of the scratch table is not zero. Before, every byte of the output is 165 and the table has ones in every bit.
ghost use Rattle.io.specs.Counts.{IsPrefixLen};

use crate::case::Case;
use term_spec::{TermsWritten, WriteAnswer};

// ` touched` if a byte of the rest of the output is not 165, then ` dirty` if a word is not 0, and the line's end.
fn put_after(dst: &mut [u8], at: usize, scratch: &[u64], rest: &[u8]) -> usize
    ensures { IsPrefixLen result dst.new }
{
    if rest.iter().all(|x| *x == 165) {
        return vector_lines::put_end(dst, at, scratch, 0);
    }
    let a = vector_lines::put_word(dst, at, b" touched");
    vector_lines::put_end(dst, a, scratch, 0)
}

// A writing's answer, and output and table after it, as one line.
fn put_written(dst: &mut [u8], scratch: &[u64], output: &[u8], answer: WriteAnswer) -> usize
    ensures { IsPrefixLen result dst.new }
{
    match answer {
        Err(r) => {
            let a = vector_lines::put_refused(dst, 0, r);
            put_after(dst, a, scratch, output)
        }
        Ok(TermsWritten { length, .. }) => {
            let (written, rest) = output.split_at(vector_lines::inside(output, length));
            let a = vector_lines::put_word(dst, 0, b"ok ");
            let b = vector_lines::put_hex(dst, a, written);
            put_after(dst, b, scratch, rest)
        }
    }
}

fn write(case: Case, scratch: &mut [u64], output: &mut [u8]) -> WriteAnswer {
    let connection = case.connection();
    let n = case.list_count();
    let Case {
        msg,
        places,
        lengths,
        ..
    } = case;
    if case.is_payload() {
        return writer::write_payload(connection, msg, n, places, lengths, scratch, output);
    }
    writer::write_standalone(connection, msg, n, places, lengths, scratch, output)
}

pub fn put_line(dst: &mut [u8], case: Case) -> usize
    ensures { IsPrefixLen result dst.new }
{
    let mut scratch = [u64::MAX; 8193];
    let mut output = [165u8; 65600];
    let rows = vector_lines::rows_lent(case.bytes, &scratch);
    let room = vector_lines::room_lent(case.bytes, &output);
    let scratch = &mut scratch[..rows];
    let output = &mut output[..room];
    let answer = write(case, scratch, output);
    put_written(dst, scratch, output, answer)
}
