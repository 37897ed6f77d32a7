// The one check of a value, over any store: writes, reports and making all come here.
ghost use Rattle.std.specs.Prelude.{◌≡◌};
ghost use Rattle.block.specs.Numbers.{words_of};
ghost use Rattle.block.specs.Values.{idn_known, idns_known, value_fault, ok_unless};

use crate::store::Store;
use block::attribute::{Attribute, DataType};
use block::idn::Idn;
use block::limits::Limits;
use block::value::{ValueFault, check_range, pattern_of, word_at};

// Whether an entry is 0 or the IDN of a block of the store.
pub fn idn_known<S: Store>(store: &S, idn: Idn) -> bool
    ensures { result ≡ idn_known (S.Store.blocks store.now) idn.0 }
{
    idn == Idn::NONE || store.find(idn).is_some()
}

// Whether every IDN that the bytes name is 0 or that of a block of the store.
pub fn idns_known<S: Store>(store: &S, bytes: &[u8]) -> bool
    ensures { result ≡ idns_known (S.Store.blocks store.now) (words_of bytes.now) }
{
    bytes
        .chunks_exact(2)
        .all(|pair| idn_known(store, Idn(word_at(pair, 0))))
}

// stays: attribute and limits as two parameters, since views and heads hold them beside other parts.
// The check of data for a block of this attribute and these limits; the error is the first fault: below, above, unknown IDN.
pub fn check_value<S: Store>(
    store: &S,
    attribute: Attribute,
    limits: Option<Limits>,
    bytes: &[u8],
) -> Result<(), ValueFault>
    ensures { result ≡ ok_unless (value_fault (S.Store.blocks store.now) attribute.0 limits bytes.now) }
{
    check_range(attribute, limits, pattern_of(bytes))?;
    match attribute.data_type() {
        Some(DataType::IdnType) if !idns_known(store, bytes) => Err(ValueFault::UnknownIdn),
        _ => Ok(()),
    }
}
