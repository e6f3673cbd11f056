// The connection record: the flags that the nodes agreed on in the handshake. All calls but the reset take it.
#![tactic(auto)]

ghost use Rattle.std.specs.Prelude.{◌≡◌};
ghost use Rattle.term_spec.specs.Text.{coding_of};
ghost use Rattle.term_spec.specs.Connection.{coding_agreed, flags_known};

// Bits of a number and no enum: C passes the flags as one byte.
// Bit 0: the texts of headers are in UTF-8, else in Latin-1.
pub const UTF8: u8 = 1;
// Bit 1: newer identifiers.
pub const V4_NC: u8 = 2;
// Flags below this have no unknown bit.
const KNOWN: u8 = 4;

#[derive(Drop)]
pub struct Connection {
    pub flags: u8,
}

// Whether no unknown flag is set.
#[tactic(auto, unfolding(term_spec::specs::Connection::flags_known))]
pub fn flags_known(flags: u8) -> bool
    ensures { result ≡ flags_known flags }
{
    flags < KNOWN
}

// Whether the texts of headers are in UTF-8.
#[tactic(auto, unfolding(term_spec::specs::Connection::coding_agreed))]
pub fn utf8_agreed(flags: u8) -> bool
    ensures { coding_of result ≡ coding_agreed flags }
{
    flags % 2 == UTF8
}
