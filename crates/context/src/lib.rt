// What reading is given and hands down unchanged.
#![tactic(auto)]

ghost use Rattle.std.specs.Prelude.{◌≡◌, ltb};
ghost use Rattle.term_spec.specs.Connection.{v4_nc};

// A message, the atom list as it is lent (n of its places count), the connection's flags, and how many rows may be taken.
#[derive(Clone, Copy)]
pub struct Context<'a> {
    pub msg: &'a [u8],
    pub places: &'a [u8],
    pub lengths: &'a [u16],
    pub n: u8,
    pub flags: u8,
    pub capacity: usize,
}

impl<'a> Context<'a> {
    // Whether row `row` may be taken.
    pub fn has_row(&self, row: usize) -> bool
        ensures { result ≡ ltb row self.now.capacity }
    {
        row < self.capacity
    }

    // Whether newer identifiers were agreed on.
    pub fn v4_nc(&self) -> bool
        ensures { result ≡ v4_nc self.now.flags }
    {
        self.flags / 2 % 2 == 1
    }
}
