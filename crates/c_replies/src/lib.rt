// The replies of the calls for C: the structs that they answer by value, and each answer as such a struct.
#![tactic(auto)]

pub mod marks;
pub mod numbers;
pub mod packet_kinds;
pub mod text_sources;

ghost use Rattle.std.specs.Prelude.{◌≡◌};
ghost use Rattle.c_replies.specs.Terms.{flat_read, flat_write, flat_number, flat_text, flat_mark};
ghost use Rattle.c_replies.specs.Packets.{refusal_in, flat_word, flat_state, flat_packet};

use packet_spec::{PacketAnswer, PacketOutcome, StateAnswer, WordAnswer, WordAt};
use queries::{TextAnswer, TextAt};
use term_spec::{
    Mark, MarkAnswer, NumberAnswer, ReadAnswer, Refusal, RowNumber, TermsRead, TermsWritten,
    WriteAnswer,
};

// What reading answers: the refusal's number (0: accepted) and place, the number of terms and of rows.
#[repr(C)]
#[derive(Drop)]
pub struct ReadReply {
    pub refusal: u64,
    pub place: u64,
    pub terms: u64,
    pub rows: u64,
}

// What writing answers: the number of terms and of bytes written.
#[repr(C)]
#[derive(Drop)]
pub struct WriteReply {
    pub refusal: u64,
    pub place: u64,
    pub terms: u64,
    pub length: u64,
}

// A row's number: its kind, of `numbers`; a number that is not answered is 0.
#[repr(C)]
#[derive(Drop)]
pub struct NumberReply {
    pub refusal: u64,
    pub place: u64,
    pub kind: u64,
    pub integer: i64,
    pub real: f64,
}

// Where an atom's text stands: in what, of `text_sources`. The mark's reply has its refusal.
#[repr(C)]
#[derive(Drop)]
pub struct TextReply {
    pub from: u64,
    pub start: u64,
    pub length: u64,
}

// An atom's mark, of `marks`.
#[repr(C)]
#[derive(Drop)]
pub struct MarkReply {
    pub refusal: u64,
    pub place: u64,
    pub mark: u64,
}

// The text of a reference: its start and length along the list's places.
#[repr(C)]
#[derive(Drop)]
pub struct WordReply {
    pub refusal: u64,
    pub place: u64,
    pub start: u64,
    pub length: u64,
}

// What a drop or a reset answers.
#[repr(C)]
#[derive(Drop)]
pub struct StateReply {
    pub refusal: u64,
    pub place: u64,
}

// What taking a packet answers: its kind, of `packet_kinds`. Plain: the payload's offset and length in the packet; pending: the id now due, the
// bytes gathered; complete: the bytes gathered.
#[repr(C)]
#[derive(Drop)]
pub struct PacketReply {
    pub refusal: u64,
    pub place: u64,
    pub kind: u64,
    pub offset: u64,
    pub length: u64,
    pub due: u64,
    pub gathered: u64,
}

// The refusal of an answer, 0 and 0 where there is none.
fn refusal_in<T>(answer: &Result<T, Refusal>) -> StateReply
    ensures { result ≡ refusal_in answer.now }
{
    match answer {
        Ok(_) => StateReply {
            refusal: 0,
            place: 0,
        },
        Err(refusal) => StateReply {
            refusal: u64::from(refusal.number),
            place: refusal.place as u64,
        },
    }
}

impl From<ReadAnswer> for ReadReply {
    ghost from_gives = { λ answer reply. reply ≡ flat_read answer };

    #[tactic(auto, unfolding(crate::specs::Terms::flat_read))]
    fn from(answer: ReadAnswer) -> ReadReply {
        let StateReply { refusal, place } = refusal_in(&answer);
        let TermsRead { terms, rows } = answer.unwrap_or(TermsRead { terms: 0, rows: 0 });
        ReadReply {
            refusal,
            place,
            terms: terms as u64,
            rows: rows as u64,
        }
    }
}

impl From<WriteAnswer> for WriteReply {
    ghost from_gives = { λ answer reply. reply ≡ flat_write answer };

    #[tactic(auto, unfolding(crate::specs::Terms::flat_write))]
    fn from(answer: WriteAnswer) -> WriteReply {
        let StateReply { refusal, place } = refusal_in(&answer);
        let TermsWritten { terms, length } = answer.unwrap_or(TermsWritten {
            terms: 0,
            length: 0,
        });
        WriteReply {
            refusal,
            place,
            terms: terms as u64,
            length: length as u64,
        }
    }
}

impl From<NumberAnswer> for NumberReply {
    ghost from_gives = { λ answer reply. reply ≡ flat_number answer };

    #[tactic(auto, unfolding(crate::specs::Terms::flat_number))]
    fn from(answer: NumberAnswer) -> NumberReply {
        let StateReply { refusal, place } = refusal_in(&answer);
        let (kind, integer, real) = match answer {
            Ok(RowNumber::Whole(integer)) => (numbers::WHOLE, integer, 0.0),
            Ok(RowNumber::Float(real)) => (numbers::FLOAT, 0, real),
            Ok(RowNumber::Neither) | Err(_) => (numbers::NEITHER, 0, 0.0),
        };
        NumberReply {
            refusal,
            place,
            kind,
            integer,
            real,
        }
    }
}

impl From<TextAnswer> for TextReply {
    ghost from_gives = { λ answer reply. reply ≡ flat_text answer };

    #[tactic(auto, unfolding(crate::specs::Terms::flat_text))]
    fn from(answer: TextAnswer) -> TextReply {
        let (from, start, length) = match answer {
            Ok(TextAt::Message { start, length, .. }) => (text_sources::MESSAGE, start, length),
            Ok(TextAt::List { start, length }) => (text_sources::LIST, start, length),
            Err(_) => (text_sources::NOWHERE, 0, 0),
        };
        TextReply {
            from,
            start: start as u64,
            length: length as u64,
        }
    }
}

impl From<MarkAnswer> for MarkReply {
    ghost from_gives = { λ answer reply. reply ≡ flat_mark answer };

    #[tactic(auto, unfolding(crate::specs::Terms::flat_mark))]
    fn from(answer: MarkAnswer) -> MarkReply {
        let StateReply { refusal, place } = refusal_in(&answer);
        let mark = match answer {
            Ok(Mark::Latin1) => marks::LATIN1,
            Ok(Mark::Utf8) => marks::UTF8,
            Err(_) => marks::NO_MARK,
        };
        MarkReply {
            refusal,
            place,
            mark,
        }
    }
}

impl From<WordAnswer> for WordReply {
    ghost from_gives = { λ answer reply. reply ≡ flat_word answer };

    #[tactic(auto, unfolding(crate::specs::Packets::flat_word))]
    fn from(answer: WordAnswer) -> WordReply {
        let StateReply { refusal, place } = refusal_in(&answer);
        let WordAt { start, length } = answer.unwrap_or(WordAt {
            start: 0,
            length: 0,
        });
        WordReply {
            refusal,
            place,
            start: start as u64,
            length: length as u64,
        }
    }
}

impl From<StateAnswer> for StateReply {
    ghost from_gives = { λ answer reply. reply ≡ flat_state answer };

    #[tactic(auto, unfolding(crate::specs::Packets::flat_state))]
    fn from(answer: StateAnswer) -> StateReply {
        refusal_in(&answer)
    }
}

impl From<PacketAnswer> for PacketReply {
    ghost from_gives = { λ answer reply. reply ≡ flat_packet answer };

    #[tactic(auto, unfolding(crate::specs::Packets::flat_packet))]
    fn from(answer: PacketAnswer) -> PacketReply {
        let StateReply { refusal, place } = refusal_in(&answer);
        let none = PacketReply {
            refusal,
            place,
            kind: packet_kinds::NO_PACKET,
            offset: 0,
            length: 0,
            due: 0,
            gathered: 0,
        };
        match answer {
            Ok(PacketOutcome::Plain { offset, length }) => PacketReply {
                kind: packet_kinds::PLAIN,
                offset: offset as u64,
                length: length as u64,
                ..none
            },
            Ok(PacketOutcome::Pending { due, gathered }) => PacketReply {
                kind: packet_kinds::PENDING,
                due,
                gathered,
                ..none
            },
            Ok(PacketOutcome::Complete { gathered }) => PacketReply {
                kind: packet_kinds::COMPLETE,
                gathered,
                ..none
            },
            Err(_) => none,
        }
    }
}
