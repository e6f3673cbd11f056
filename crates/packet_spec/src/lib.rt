// What packets hand over: the pending record, places and indices, and the answers of the calls. Packets themselves are defined in specs/;
// specs/Answers.antt gives each case here from document 01's answer.
#![tactic(auto)]

pub mod sizes;
pub mod tags;

ghost use Rattle.std.specs.Prelude.{◌≡◌};
ghost use Rattle.packet_spec.specs.Answers.{record_stays};

use term_spec::Refusal;

// A reference index: it counts along one header.
#[derive(Drop)]
pub struct ReferenceIndex(pub usize);

// A place: it counts along the cache.
#[derive(Drop)]
pub struct Place(pub usize);

// The pending record: the sequence's id, the id due (0: none pending), the bytes gathered.
#[repr(C)]
#[derive(Clone, Copy)]
pub struct Pending {
    pub sequence: u64,
    pub due: u64,
    pub gathered: u64,
}

// The record with no sequence pending.
pub const NONE_PENDING: Pending = Pending {
    sequence: 0,
    due: 0,
    gathered: 0,
};

// The ids of a fragment: SequenceId and FragmentId.
#[derive(Clone, Copy)]
pub struct Ids {
    pub sequence: u64,
    pub fragment: u64,
}

// What an accepted packet answers. Plain: the payload's offset and length in the packet. Pending: the id now due, the bytes gathered.
// Complete: the bytes gathered.
#[derive(Clone, Copy)]
pub enum PacketOutcome {
    Plain { offset: usize, length: usize },
    Pending { due: u64, gathered: u64 },
    Complete { gathered: u64 },
}

pub type PacketAnswer = Result<PacketOutcome, Refusal>;

// What a drop or a reset answers.
pub type StateAnswer = Result<(), Refusal>;

// The text of a reference, by its message's list: its start and length along the list's places.
#[derive(Clone, Copy)]
pub struct WordAt {
    pub start: usize,
    pub length: usize,
}

pub type WordAnswer = Result<WordAt, Refusal>;

// What a call answers, and the record as it is then.
#[derive(Drop)]
pub struct After<A> {
    pub answer: A,
    pub pending: Pending,
}

pub type Taken = After<PacketAnswer>;

pub type Settled = After<StateAnswer>;

// A refusal at place 0, and the record as it was.
pub fn refused<A>(number: u8, pending: Pending) -> After<Result<A, Refusal>>
    ensures { result ≡ record_stays number pending }
{
    After {
        answer: Err(Refusal { number, place: 0 }),
        pending,
    }
}
