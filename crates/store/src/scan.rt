// Looking through the blocks of a store.
ghost use Rattle.std.specs.Prelude.{◌≡◌, Bool};
ghost use Rattle.std.specs.List.{find};
ghost use Rattle.std.specs.Option.{option_map};
ghost use Rattle.std.specs.Iterator.{YieldsFirstBy, item_count};
ghost use Rattle.block.specs.Blocks.{Block, seen};
ghost use Rattle.block.specs.Lists.{block_of};
ghost use Rattle.store.specs.Scans.{to_come};

use crate::store::Store;
use block::idn::Idn;
use block::view::View;

// The blocks of a store, one after the other, from a place on.
#[derive(Drop)]
pub struct Views<'a, S> {
    store: &'a S,
    place: usize,
}

impl<'a, S: Store> Views<'a, S> {
    // All blocks of a store.
    pub fn of(store: &'a S) -> Views<'a, S>
        ensures { to_come S.Store.blocks result ≡ S.Store.blocks store.now }
    {
        Views { store, place: 0 }
    }
}

impl<'a, S: Store> Iterator for Views<'a, S> {
    type Item = View<'a>;

    ghost next_gives = { YieldsFirstBy seen (to_come S.Store.blocks) };

    ghost remaining = { item_count (to_come S.Store.blocks) };

    fn next(&mut self) -> Option<View<'a>> {
        let view = self.store.block(self.place)?;
        self.place += 1;
        Some(view)
    }
}

// The first block that a test holds of. The test has to answer for every view, as every closure that only reads does.
pub fn first_where<S: Store, F: Fn(View<'_>) -> bool>(store: &S, test: F) -> Option<View<'_>>
    requires { (v : View) → F.pre test v }
    ensures { (p : Block → Bool) → ((v : View) (r : Bool) → F.post test v r → r ≡ p (seen v)) → option_map seen result ≡ find p (S.Store.blocks store.now) }
{
    Views::of(store).find(|view| test(*view))
}

// The first block of an IDN.
pub fn block_of<S: Store>(store: &S, idn: Idn) -> Option<View<'_>>
    ensures { option_map seen result ≡ block_of (S.Store.blocks store.now) idn.0 }
{
    store.block(store.find(idn)?)
}
