// Who alone changes a block's data, and so makes them valid.
ghost use Rattle.std.specs.Prelude.{◌≡◌};
ghost use Rattle.block.specs.Blocks.{is_kept};

#[derive(Clone, Copy, PartialEq, Eq, Debug)]
pub enum Keeper {
    Master,
    Drive,
    Channel,
    Nobody,
}

impl Keeper {
    // False for a block that nobody may change.
    pub fn may_change(self) -> bool
        ensures { result ≡ is_kept self }
    {
        self != Keeper::Nobody
    }
}
