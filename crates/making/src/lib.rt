// The check that a store passes before a drive is made over it.
#![tactic(auto)]

ghost use Rattle.std.specs.Prelude.{◌≡◌};
ghost use Rattle.block.specs.Values.{ok_unless};
ghost use Rattle.making.specs.Making.{making_verdict};

use refusal::Refusal;
use store::store::Store;

mod met;
mod rules;
pub mod table;

// The first rule that the address or the store breaks; each rule looks at all blocks before the next begins.
#[tactic(auto, unfolding(crate::specs::Making::making_verdict))]
pub fn check<S: Store>(address: u8, store: &S) -> Result<(), Refusal>
    ensures { result ≡ making_verdict address (S.Store.blocks store.now) }
{
    if !rules::address_fits(address) {
        return Err(Refusal::Address);
    }
    refuse(rules::first_unordered(store).map(Refusal::Order))?;
    refuse(rules::first_bad_attribute(store).map(Refusal::Attribute))?;
    refuse(rules::first_bad_content(store).map(Refusal::Content))?;
    refuse(rules::lowest_unmet(store).map(Refusal::Demanded))
}

// A refusal that may be there is the error.
// stays: the rules give the IDN that they found or none, since two of them are searches that are joined by the lower of both.
fn refuse(refusal: Option<Refusal>) -> Result<(), Refusal>
    ensures { result ≡ ok_unless refusal }
{
    refusal.map_or(Ok(()), Err)
}
