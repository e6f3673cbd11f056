// The atom list as it is lent.
#![tactic(auto)]

ghost use Rattle.std.specs.Prelude.{◌≡◌, ℕ, ◌<◌, length};
ghost use Rattle.term_spec.specs.AtomList.{of_size, place_text, lent_list};
ghost use Rattle.text.specs.Shown.{is_valid};

use term_spec::sizes;

// The longest text of a place, as its length is kept.
const LENGTH_MOST: u16 = 32;

// Whether an atom list is of its stated size.
pub fn list_fits(places: &[u8], lengths: &[u16]) -> bool
    ensures { (n : ℕ) → result ≡ of_size (lent_list n places.now lengths.now) }
{
    places.len() == sizes::LIST_BYTES && lengths.len() == sizes::LIST_PLACES
}

// Whether place i of a list of its stated size holds a text: its length at most 32, its bytes UTF-8.
pub fn place_holds_text(places: &[u8], lengths: &[u16], i: usize) -> bool
    requires { (i < 255) × (length places.now ≡ 8160) × (length lengths.now ≡ 255) }
    ensures { (n : ℕ) → result ≡ is_valid (place_text (lent_list n places.now lengths.now) i) }
{
    let length = lengths[i];
    let from = sizes::PLACE_BYTES * i;
    length <= LENGTH_MOST && text::is_utf8(&places[from..from + usize::from(length)])
}
