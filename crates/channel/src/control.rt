// The control word of an MDT.
ghost use Rattle.std.specs.Prelude.{◌≡◌};
ghost use Rattle.channel.specs.Controls.{handshake, is_write, is_last, element_of, upper_bits, element_number, element_named};

// What a step is about: closing the channel, the IDN or status, or a part of the open block.
#[derive(Clone, Copy, PartialEq, Eq, Debug)]
pub enum Element {
    Closing = 0,
    Number = 1,
    Name = 2,
    Attribute = 3,
    Unit = 4,
    Lower = 5,
    Upper = 6,
    Content = 7,
}

impl Element {
    pub fn number(self) -> u16
        ensures { result ≡ element_number self }
    {
        self as u16
    }
}

#[derive(Clone, Copy, PartialEq, Eq, Debug)]
pub struct Control(pub u16);

impl Control {
    // The master's handshake bit.
    pub fn handshake(self) -> bool
        ensures { result ≡ handshake self.0 }
    {
        self.0 % 2 == 1
    }

    pub fn is_write(self) -> bool
        ensures { result ≡ is_write self.0 }
    {
        self.0 / 2 % 2 == 1
    }

    pub fn is_last(self) -> bool
        ensures { result ≡ is_last self.0 }
    {
        self.0 / 4 % 2 == 1
    }

    pub fn element(self) -> Element
        ensures { result ≡ element_named (element_of self.0) }
    {
        // stays: a match, since the three bits always name an element, and TryFrom would add an error that cannot come.
        match self.0 / 8 % 8 {
            0 => Element::Closing,
            1 => Element::Number,
            2 => Element::Name,
            3 => Element::Attribute,
            4 => Element::Unit,
            5 => Element::Lower,
            6 => Element::Upper,
            _ => Element::Content,
        }
    }

    // Bits 15 to 6, which the channel hands on.
    pub fn upper_bits(self) -> u16
        ensures { result ≡ upper_bits self.0 }
    {
        self.0 / 64 * 64
    }
}
