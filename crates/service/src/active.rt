// Which commands are under way.
ghost use Rattle.std.specs.Prelude.{◌≡◌};
ghost use Rattle.block.specs.Lists.{block_of};
ghost use Rattle.service.specs.Names.{is_to_name, valid_value};
ghost use Rattle.service.specs.Steps.{others_active, is_recalled};

use block::idn::Idn;
use block::value::word_at;
use channel::command::{CommandStatus, is_active};
use store::scan::{Views, block_of};
use store::store::Store;

// Whether another command than the one at a place is interrupted or under way.
pub(crate) fn others_active<S: Store>(store: &S, place: usize) -> bool
    ensures { result ≡ others_active place (S.Store.blocks store.now) }
{
    Views::of(store).enumerate().any(|(i, view)| i != place
        && view.attribute.is_command()
        && is_active(view.status))
}

// Whether an order is out for a command at status 0.
pub(crate) fn is_recalled<S: Store>(store: &S, out: Option<Idn>) -> bool
    ensures { result ≡ is_recalled (S.Store.blocks store.now) out }
{
    let block = out.and_then(|idn| block_of(store, idn));
    block.is_some_and(|view| CommandStatus::try_from(view.status) == Ok(CommandStatus::Idle))
}

// The two-byte value of a block, if it is there and valid.
pub(crate) fn valid_value<S: Store>(store: &S, idn: Idn) -> Option<u16>
    ensures { result ≡ valid_value (block_of (S.Store.blocks store.now) idn.0) }
{
    block_of(store, idn)
        .filter(|view| !view.is_invalid())
        .map(|view| word_at(view.content, 0))
}

// Whether S-0-0128 names an entry: it is not 0, and its block is invalid.
pub(crate) fn is_to_name<S: Store>(store: &S, idn: Idn) -> bool
    ensures { result ≡ is_to_name (S.Store.blocks store.now) idn.0 }
{
    idn != Idn::NONE && block_of(store, idn).is_some_and(|view| view.is_invalid())
}
