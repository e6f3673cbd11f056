// A case whose words are asked for: its output room says how many indices, from 0 on. For each its word (`word,START,LENGTH`) or `refused,N,P`;
// ` differs` after it if the word itself has other bytes than that stretch of the places, or has any where refused.
ghost use Rattle.io.specs.Counts.{IsPrefixLen};

use crate::case::{Case, put_differs, put_pair, put_refused, put_space};
use packet_spec::{ReferenceIndex, WordAnswer, WordAt};

// Where a word is said to stand, and whether the word lent is what stands there.
fn put_answer(dst: &mut [u8], at: usize, places: &[u8], answer: WordAnswer, word: &[u8]) -> usize
    ensures { IsPrefixLen result dst.new }
{
    match answer {
        Ok(WordAt { start, length }) => {
            let a = put_pair(dst, at, b"word", start, length);
            put_differs(dst, a, places, start, length, word)
        }
        Err(r) => {
            let a = put_refused(dst, at, r);
            put_differs(dst, a, places, 0, 0, word)
        }
    }
}

// The words of the indices from 0 on; once the line is full, no more is asked.
pub fn put_line(dst: &mut [u8], case: Case) -> usize
    ensures { IsPrefixLen result dst.new }
{
    let n = case.list_count();
    let Case {
        places,
        lengths,
        ..
    } = case;
    let mut next = 0usize;
    for i in 0..vector_lines::number3(case.bytes, 3) {
        if next == dst.len() {
            return next;
        }
        let answer = word_lookup::locate_word(
            case.connection(),
            n,
            places,
            lengths,
            ReferenceIndex(i),
        );
        let word = word_lookup::word(case.connection(), n, places, lengths, ReferenceIndex(i));
        let a = put_space(dst, next);
        next = put_answer(dst, a, places, answer, word);
    }
    vector_lines::put_byte(dst, next, b'\n')
}
