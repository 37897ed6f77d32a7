// The attribute word of a data block.
ghost use Rattle.std.specs.Prelude.{◌≡◌, false, MatchOption};
ghost use Rattle.std.specs.Result.{MatchResult};
ghost use Rattle.block.specs.Attributes.{factor, length_code, is_command, type_code, decimals, is_protected, code_number, known_code, is_list, item_size, type_number, known_type, attribute_kept};
ghost use Rattle.block.specs.Phases.{phase_number};

use crate::phase::Phase;

#[derive(Clone, Copy, PartialEq, Eq, Debug)]
pub struct Attribute(pub u32);

// How long the data are: fixed, or a list of items of one size.
#[derive(Clone, Copy, PartialEq, Eq, Debug)]
pub enum LengthCode {
    TwoBytes = 1,
    FourBytes = 2,
    ByteList = 4,
    WordList = 5,
    LongList = 6,
}

// A number that no length code has.
#[derive(Clone, Copy, PartialEq, Eq, Debug)]
pub struct NoLengthCode;

// How the data are to be read.
#[derive(Clone, Copy, PartialEq, Eq, Debug)]
pub enum DataType {
    Binary = 0,
    Unsigned = 1,
    Signed = 2,
    Hexadecimal = 3,
    Text = 4,
    IdnType = 5,
}

// A number that no type has.
#[derive(Clone, Copy, PartialEq, Eq, Debug)]
pub struct NoDataType;

impl LengthCode {
    // The bytes of one item of a list, or of the whole fixed data.
    pub fn item(self) -> usize
        ensures { result ≡ item_size (code_number self) }
    {
        match self {
            LengthCode::ByteList => 1,
            LengthCode::TwoBytes | LengthCode::WordList => 2,
            LengthCode::FourBytes | LengthCode::LongList => 4,
        }
    }

    pub fn is_list(self) -> bool
        ensures { result ≡ is_list (code_number self) }
    {
        matches!(
            self,
            LengthCode::ByteList | LengthCode::WordList | LengthCode::LongList
        )
    }
}

impl TryFrom<u32> for LengthCode {
    type Error = NoLengthCode;

    ghost try_from_gives = { λ n r. MatchResult r (λ code. code_number code ≡ n) (λ _. known_code n ≡ false) };

    fn try_from(number: u32) -> Result<LengthCode, NoLengthCode> {
        match number {
            1 => Ok(LengthCode::TwoBytes),
            2 => Ok(LengthCode::FourBytes),
            4 => Ok(LengthCode::ByteList),
            5 => Ok(LengthCode::WordList),
            6 => Ok(LengthCode::LongList),
            _ => Err(NoLengthCode),
        }
    }
}

impl TryFrom<u32> for DataType {
    type Error = NoDataType;

    ghost try_from_gives = { λ n r. MatchResult r (λ kind. type_number kind ≡ n) (λ _. known_type n ≡ false) };

    fn try_from(number: u32) -> Result<DataType, NoDataType> {
        match number {
            0 => Ok(DataType::Binary),
            1 => Ok(DataType::Unsigned),
            2 => Ok(DataType::Signed),
            3 => Ok(DataType::Hexadecimal),
            4 => Ok(DataType::Text),
            5 => Ok(DataType::IdnType),
            _ => Err(NoDataType),
        }
    }
}

impl Attribute {
    pub fn factor(self) -> u16
        ensures { result ≡ factor self.0 }
    {
        (self.0 % 0x1_0000) as u16
    }

    pub fn length_code(self) -> Option<LengthCode>
        ensures { MatchOption result (known_code (length_code self.0) ≡ false) (λ c. code_number c ≡ length_code self.0) }
    {
        LengthCode::try_from(self.0 / 0x1_0000 % 8).ok()
    }

    // The bytes of one item of a list, or of the whole fixed data; an unknown code counts as four.
    pub fn item(self) -> usize
        ensures { result ≡ item_size (length_code self.0) }
    {
        self.length_code().map_or(4, LengthCode::item)
    }

    // Whether the length code is one of lists.
    // stays: the bare number, since the unknown code 7 counts as a list, and no LengthCode stands for it.
    pub fn is_list(self) -> bool
        ensures { result ≡ is_list (length_code self.0) }
    {
        self.0 / 0x1_0000 % 8 >= 4
    }

    pub fn is_command(self) -> bool
        ensures { result ≡ is_command self.0 }
    {
        self.0 / 0x8_0000 % 2 == 1
    }

    pub fn data_type(self) -> Option<DataType>
        ensures { MatchOption result (known_type (type_code self.0) ≡ false) (λ t. type_number t ≡ type_code self.0) }
    {
        DataType::try_from(self.0 / 0x10_0000 % 8).ok()
    }

    pub fn decimals(self) -> u8
        ensures { result ≡ decimals self.0 }
    {
        (self.0 / 0x100_0000 % 16) as u8
    }

    // Whether the master's writes are shut out in this phase.
    pub fn is_protected(self, phase: Phase) -> bool
        ensures { result ≡ is_protected (phase_number phase) self.0 }
    {
        match phase {
            Phase::Two => self.0 / 0x1000_0000 % 2 == 1,
            Phase::Three => self.0 / 0x2000_0000 % 2 == 1,
            Phase::Four => self.0 / 0x4000_0000 % 2 == 1,
            Phase::Zero | Phase::One => false,
        }
    }

    // Factor not 0, reserved bits clear, and a type that goes with the length code.
    pub fn keeps_rules(self) -> bool
        ensures { result ≡ attribute_kept self.0 }
    {
        let reserved = self.0 / 0x80_0000 % 2 == 1 || self.0 / 0x8000_0000 % 2 == 1;
        if self.factor() == 0 || reserved {
            return false;
        }
        let (Some(code), Some(kind)) = (self.length_code(), self.data_type()) else {
            return false;
        };
        if self.is_command() {
            return kind == DataType::Binary && code == LengthCode::TwoBytes;
        }
        match kind {
            DataType::Text => code == LengthCode::ByteList,
            DataType::IdnType => code == LengthCode::TwoBytes || code == LengthCode::WordList,
            DataType::Binary | DataType::Unsigned | DataType::Signed | DataType::Hexadecimal => code
                != LengthCode::ByteList,
        }
    }
}
