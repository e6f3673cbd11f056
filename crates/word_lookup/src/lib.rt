// The word of a reference: its text, by its message's own atom list.
#![tactic(auto)]

ghost use Rattle.std.specs.Prelude.{◌≡◌};
ghost use Rattle.term_spec.specs.AtomList.{lent_list};
ghost use Rattle.packet_spec.specs.Promises.{LocateWordCall, WordCall};

use connection::Connection;
use packet_spec::{ReferenceIndex, WordAnswer, WordAt};
use term_spec::{Refusal, refusals, sizes};

// Where the word of reference `index` stands in this list's places: 13, 14 for an unknown flag, 6, 14. A list's parts and no struct: C lends each, and docs/API.md has them so.
pub fn locate_word(
    connection: Connection,
    n: u8,
    places: &[u8],
    lengths: &[u16],
    index: ReferenceIndex,
) -> WordAnswer
    ensures { LocateWordCall connection.flags (lent_list n places.now lengths.now) index.0 result }
{
    if !atom_list::list_fits(places, lengths) {
        return Err(Refusal {
            number: refusals::SIZE,
            place: 0,
        });
    }
    if !connection::flags_known(connection.flags) {
        return Err(Refusal {
            number: refusals::STATE,
            place: 0,
        });
    }
    let i = index.0;
    if usize::from(n) <= i {
        return Err(Refusal {
            number: refusals::INDEX,
            place: 0,
        });
    }
    if !atom_list::place_holds_text(places, lengths, i) {
        return Err(Refusal {
            number: refusals::STATE,
            place: 0,
        });
    }
    Ok(WordAt {
        start: sizes::PLACE_BYTES * i,
        length: usize::from(lengths[i]),
    })
}

// The word itself, a part of the list's places; empty where refused.
pub fn word<'a>(
    connection: Connection,
    n: u8,
    places: &'a [u8],
    lengths: &[u16],
    index: ReferenceIndex,
) -> &'a [u8]
    ensures { WordCall connection.flags (lent_list n places.now lengths.now) index.0 result.now }
{
    match locate_word(connection, n, places, lengths, index) {
        Ok(WordAt { start, length }) => &places[start..start + length],
        Err(_) => &places[..0],
    }
}
