// The words for keepers, types, lengths and validity.
// stays: words by functions, since they belong to this listing alone and a Display would have to lie in the crate of its type, or
// in a newtype of each, which is longer.
ghost use Rattle.std.specs.Prelude.{◌≡◌};
ghost use Rattle.params.specs.Words.{keeper_word, type_word, length_words, valid_word};

use block::attribute::{DataType, LengthCode};
use block::keeper::Keeper;

pub fn keeper_word(keeper: Keeper) -> &'static str
    ensures { result.now ≡ keeper_word keeper }
{
    match keeper {
        Keeper::Master => "master",
        Keeper::Drive => "drive",
        Keeper::Channel => "channel",
        Keeper::Nobody => "nobody",
    }
}

pub fn type_word(data_type: DataType) -> &'static str
    ensures { result.now ≡ type_word data_type }
{
    match data_type {
        DataType::Binary => "binary",
        DataType::Unsigned => "unsigned",
        DataType::Signed => "signed",
        DataType::Hexadecimal => "hex",
        DataType::Text => "text",
        DataType::IdnType => "IDN",
    }
}

pub fn length_words(code: LengthCode) -> &'static str
    ensures { result.now ≡ length_words code }
{
    match code {
        LengthCode::TwoBytes => "2 bytes",
        LengthCode::FourBytes => "4 bytes",
        LengthCode::ByteList => "list of 1 byte",
        LengthCode::WordList => "list of 2 bytes",
        LengthCode::LongList => "list of 4 bytes",
    }
}

pub fn valid_word(status: u16) -> &'static str
    ensures { result.now ≡ valid_word status }
{
    if status / 0x100 % 2 == 1 {
        "invalid"
    } else {
        "valid"
    }
}
