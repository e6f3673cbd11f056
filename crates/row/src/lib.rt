// A row of the table as a word of 64 bits (docs/ROWS.md).
#![tactic(auto)]

ghost use Rattle.std.specs.Prelude.{◌≡◌, ◌<◌};
ghost use Rattle.term_spec.specs.Rows.{SmallFields, pack, kind_in, offset_in, whole_in, parts_in, size_in};

// The word of a row; `whole` is the whole's row plus 1, or 0.
// Numbers and no enum or Option: docs/ROWS.md has them in the row's word, which C reads.
#[tactic(auto, unfolding(term_spec::specs::Rows::pack))]
pub fn pack(kind: usize, offset: usize, whole: usize, parts: usize, size: usize) -> u64
    requires { SmallFields kind offset whole parts size }
    ensures { result ≡ pack kind offset whole parts size }
{
    (kind + 16 * offset + 1048576 * whole + 17179869184 * parts + 140737488355328 * size) as u64
}

#[tactic(auto, unfolding(term_spec::specs::Rows::kind_in))]
pub fn kind_in(w: u64) -> usize
    ensures { (result ≡ kind_in w) × (result < 16) }
{
    (w % 16) as usize
}

#[tactic(auto, unfolding(term_spec::specs::Rows::offset_in))]
pub fn offset_in(w: u64) -> usize
    ensures { (result ≡ offset_in w) × (result < 65536) }
{
    (w / 16 % 65536) as usize
}

#[tactic(auto, unfolding(term_spec::specs::Rows::whole_in))]
pub fn whole_in(w: u64) -> usize
    ensures { (result ≡ whole_in w) × (result < 16384) }
{
    (w / 1048576 % 16384) as usize
}

#[tactic(auto, unfolding(term_spec::specs::Rows::parts_in))]
pub fn parts_in(w: u64) -> usize
    ensures { (result ≡ parts_in w) × (result < 8192) }
{
    (w / 17179869184 % 8192) as usize
}

#[tactic(auto, unfolding(term_spec::specs::Rows::size_in))]
pub fn size_in(w: u64) -> usize
    ensures { (result ≡ size_in w) × (result < 16384) }
{
    (w / 140737488355328 % 16384) as usize
}
