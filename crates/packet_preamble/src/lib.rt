// What stands before the header of a packet: 131, the tag, and the two ids of a fragment.
#![tactic(auto)]

ghost use Rattle.std.specs.Prelude.{◌≤◌, length};
ghost use Rattle.packet_preamble.specs.Code.{IdsAre, PreambleIs};

use packet_spec::{Ids, sizes, tags};
use term_spec::refusals;

// The packet's kind, with the ids of a fragment.
#[derive(Clone, Copy)]
pub enum Preamble {
    Plain,
    Start(Ids),
    Continuation(Ids),
}

// The ids that stand after the first two bytes: 2, then 24 for zero; or the number of the refusal.
fn read_ids(packet: &[u8]) -> Result<Ids, u8>
    requires { 2 ≤ length packet.now }
    ensures { IdsAre packet.now result }
{
    if packet.len() < sizes::FRAGMENT_PREAMBLE {
        return Err(refusals::CUT);
    }
    let sequence = octets::big8(packet, 2);
    let fragment = octets::big8(packet, 10);
    if fragment == 0 {
        return Err(refusals::FRAGMENT);
    }
    Ok(Ids { sequence, fragment })
}

// The packet's kind: 1, 2, 20, ids with 24 for zero; or the number of the refusal. A number and no enum: the definitions name refusals by their numbers.
pub fn read_preamble(packet: &[u8]) -> Result<Preamble, u8>
    ensures { PreambleIs packet.now result }
{
    if packet.len() == 0 || packet[0] != term_spec::tags::VERSION {
        return Err(refusals::NO_VERSION);
    }
    if packet.len() == 1 {
        return Err(refusals::CUT);
    }
    match packet[1] {
        tags::DIST_HEADER => Ok(Preamble::Plain),
        tags::DIST_FRAG_HEADER => Ok(Preamble::Start(read_ids(packet)?)),
        tags::DIST_FRAG_CONT => Ok(Preamble::Continuation(read_ids(packet)?)),
        _ => Err(refusals::PACKET),
    }
}
