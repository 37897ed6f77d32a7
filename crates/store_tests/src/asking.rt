// What the tests ask of the block at a place.
ghost use Rattle.std.specs.Prelude.{◌≡◌};
ghost use Rattle.std.specs.List.{slice_get};
ghost use Rattle.std.specs.Option.{option_map};

use block::keeper::Keeper;
use store::store::Store;

// stays: one line for each part that is asked for, which a closure as a parameter would not shorten.

// Who keeps the block.
pub fn keeper_at<S: Store>(store: &S, place: usize) -> Option<Keeper>
    ensures { result ≡ option_map (λ b. b.keeper) (slice_get (S.Store.blocks store.now) place) }
{
    store.block(place).map(|view| view.keeper)
}

// Its data status.
pub fn status_at<S: Store>(store: &S, place: usize) -> Option<u16>
    ensures { result ≡ option_map (λ b. b.status) (slice_get (S.Store.blocks store.now) place) }
{
    store.block(place).map(|view| view.status)
}
