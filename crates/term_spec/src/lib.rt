// The answers of the calls. The format itself is defined in specs/; specs/Answers.antt gives each case here from document 01's answer.
#![tactic(auto)]

pub mod kinds;
pub mod refusals;
pub mod sizes;
pub mod tags;

// A refusal's number and place. A number and no enum: the definitions name refusals by their numbers, and C is answered them.
#[derive(Clone, Copy)]
pub struct Refusal {
    pub number: u8,
    pub place: usize,
}

// What was read: the number of terms and of rows.
#[derive(Clone, Copy)]
pub struct TermsRead {
    pub terms: usize,
    pub rows: usize,
}

// What reading a message answers.
pub type ReadAnswer = Result<TermsRead, Refusal>;

// What was written: the number of terms and of bytes.
#[derive(Clone, Copy)]
pub struct TermsWritten {
    pub terms: usize,
    pub length: usize,
}

// What writing a message answers.
pub type WriteAnswer = Result<TermsWritten, Refusal>;

// The number of a row.
#[derive(Clone, Copy)]
pub enum RowNumber {
    Whole(i64),
    Float(f64),
    Neither,
}

// What a row answers, asked for its number.
pub type NumberAnswer = Result<RowNumber, Refusal>;

// How the text of an atom is coded.
#[derive(Clone, Copy)]
pub enum Mark {
    Latin1,
    Utf8,
}

// What an atom answers, asked for its mark.
pub type MarkAnswer = Result<Mark, Refusal>;
