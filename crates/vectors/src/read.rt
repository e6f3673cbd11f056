// A case that is read: `refused N P`, or `ok TERMS ROWS` and the rows; ` dirty` at the end if a word that has to be zero is not. The table has
// ones in every bit before.
ghost use Rattle.io.specs.Counts.{IsPrefixLen};

use crate::case::Case;
use term_spec::ReadAnswer;

fn read(case: Case, table: &mut [u64]) -> ReadAnswer {
    let connection = case.connection();
    let n = case.list_count();
    if case.is_payload() {
        return reader::read_payload(connection, case.msg, n, case.places, case.lengths, table);
    }
    reader::read_standalone(connection, case.msg, n, case.places, case.lengths, table)
}

pub fn put_line(dst: &mut [u8], case: Case) -> usize
    ensures { IsPrefixLen result dst.new }
{
    let mut table = [u64::MAX; 8193];
    let rows = vector_lines::rows_lent(case.bytes, &table);
    let lent = &mut table[..rows];
    let answer = read(case, lent);
    vector_lines::put_read(dst, lent, answer)
}
