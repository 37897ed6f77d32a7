// Changes of a store: data that are accepted are valid.
ghost use Rattle.std.specs.Prelude.{◌≡◌};
ghost use Rattle.block.specs.Lists.{place_of};
ghost use Rattle.service.specs.Changes.{accepted, accepted_at};

use block::idn::Idn;
use store::store::Store;

// Puts data into the block at a place, and marks them valid.
pub fn accept<S: Store>(store: &mut S, place: usize, bytes: &[u8])
    ensures { S.Store.blocks store.new ≡ accepted (S.Store.blocks store.old) place bytes.now }
{
    let _ = store.replace(place, bytes);
    let _ = store.set_status(place, 0);
}

// The same for the block of an IDN, if there is one.
pub fn accept_at<S: Store>(store: &mut S, idn: Idn, bytes: &[u8])
    ensures { S.Store.blocks store.new ≡ accepted_at (S.Store.blocks store.old) (place_of (S.Store.blocks store.old) idn.0) bytes.now }
{
    if let Some(place) = store.find(idn) {
        accept(store, place, bytes);
    }
}
