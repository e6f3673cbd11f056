// Answers each case of standard input (crate vector_lines) by a line: `read`, `write`, `ask` and `word` as the module of each says, `unknown` for another verb.
#![tactic(auto)]

mod ask;
mod case;
mod read;
mod word;
mod write;

ghost use Rattle.io.specs.Counts.{IsPrefixLen};

use case::Case;
use vector_lines::Verb;

// Standard output's number.
const STDOUT: i32 = 1;

fn put_line(dst: &mut [u8], verb: Verb, case: Case) -> usize
    ensures { IsPrefixLen result dst.new }
{
    match verb {
        Verb::Read => read::put_line(dst, case),
        Verb::Write => write::put_line(dst, case),
        Verb::Ask => ask::put_line(dst, case),
        Verb::Word => word::put_line(dst, case),
        Verb::Unknown => vector_lines::put_word(dst, 0, b"unknown\n"),
    }
}

// Puts the answer to the case that has these bytes.
fn put_case(dst: &mut [u8], verb: Verb, bytes: &[u8]) -> usize
    ensures { IsPrefixLen result dst.new }
{
    let mut places = [0u8; 8161];
    let mut lengths = [0u16; 256];
    let start = vector_lines::fill_list(bytes, &mut places, &mut lengths);
    let p = vector_lines::places_lent(bytes, &places);
    let l = vector_lines::lengths_lent(bytes, &lengths);
    let case = Case {
        bytes,
        msg: &bytes[start..],
        places: &places[..p],
        lengths: &lengths[..l],
    };
    put_line(dst, verb, case)
}

fn run_all(book: &[u8]) {
    // Of a case that is too long the first bytes alone are asked about, and of an answer that is too long the first alone are printed.
    let mut case = [0u8; 80000];
    let mut answer = [0u8; 140000];
    for line in book.split_inclusive(|x| *x == b'\n') {
        let line = line.strip_suffix(b"\n").unwrap_or(line);
        let n = vector_lines::decode_line(&mut case, line);
        let k = put_case(&mut answer, vector_lines::verb_of(line), &case[..n]);
        io::write_all(STDOUT, &answer[..k]);
    }
}

// Room for all of standard input.
fn empty_book() -> [u8; 2000000] {
    [0u8; 2000000]
}

fn main() {
    let mut book = empty_book();
    let n = io::read_full(0, &mut book);
    run_all(&book[..n]);
}
