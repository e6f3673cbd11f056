// The integer 0 to 255 that a term is: a character of a string.
#![tactic(auto)]

ghost use Rattle.std.specs.Prelude.{◌≡◌, true, List, ℕ, ◌<◌, IfSome};
ghost use Rattle.std.proofs.Math.Option.{some};
ghost use Rattle.term_spec.specs.Numbers.{with_sign};
ghost use Rattle.term_spec.specs.Term.{integer};
ghost use Rattle.term_spec.specs.Canonical.{small};
ghost use Rattle.row_fields.specs.Found.{content_of};
ghost use Rattle.row_fields.specs.Meaning.{sign, label_of};
ghost use Rattle.canonical_fields.specs.Sound.{listed_in, label_in, SoundWord};
ghost use Rattle.characters.specs.Code.{CharacterOf};

use row_fields::Content;
use term_spec::{kinds, tags};

// A magnitude as a character.
#[inline]
fn character(negative: bool, magnitude: u64) -> Option<u8>
    requires { negative ≡ true → 0 < magnitude }
    ensures { CharacterOf (integer (with_sign (sign negative) magnitude)) result }
{
    if negative {
        return None;
    }
    u8::try_from(magnitude).ok()
}

// The integer 0 to 255 that the term is whose row this is, by its content.
fn character_found(msg: &[u8], places: &[u8], lengths: &[u16], word: u64) -> Option<u8>
    requires { SoundWord msg.now places.now lengths.now word }
    ensures { CharacterOf (label_in msg.now places.now lengths.now word) result }
{
    match canonical_fields::content(msg, places, lengths, word) {
        Content::Whole {
            negative,
            magnitude,
        } => character(negative, magnitude),
        _ => None,
    }
}

// The integer of a character or of a 97 by its row's kind and offset; none for any other term.
#[inline]
fn plain_character(msg: &[u8], kind: usize, at: usize) -> Option<u8>
    requires { at < 65536 }
    ensures { (places lengths : List ℕ) → IfSome result (λ c. small (label_of msg.now (listed_in places) kind (content_of msg.now places lengths kind at)) ≡ some c) }
{
    match kind {
        kinds::CHARACTER => Some(*msg.get(at)?),
        kinds::INTEGER => {
            if *msg.get(at)? != tags::SMALL_INTEGER_EXT {
                return None;
            }
            Some(*msg.get(at + 1)?)
        }
        _ => None,
    }
}

// The integer 0 to 255 that the term is whose row this is; none for any other term.
pub fn character_at(msg: &[u8], places: &[u8], lengths: &[u16], word: u64) -> Option<u8>
    requires { SoundWord msg.now places.now lengths.now word }
    ensures { CharacterOf (label_in msg.now places.now lengths.now word) result }
{
    let kind = row::kind_in(word);
    if let Some(c) = plain_character(msg, kind, row::offset_in(word)) {
        return Some(c);
    }
    match kind {
        kinds::INTEGER | kinds::CHARACTER => character_found(msg, places, lengths, word),
        _ => None,
    }
}
