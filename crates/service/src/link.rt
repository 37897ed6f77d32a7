// What the channel holds: the handshake, the open block, a transfer and the last answer.
ghost use Rattle.std.specs.Prelude.{◌≡◌};
ghost use Rattle.block.specs.Blocks.{seen};
ghost use Rattle.channel.specs.Controls.{element_number};
ghost use Rattle.service.specs.States.{info_of, goes_on, head_of};

use block::attribute::Attribute;
use block::idn::Idn;
use block::keeper::Keeper;
use block::limits::Limits;
use block::phase::Phase;
use block::view::View;
use channel::control::Element;

// A run of steps on one element in one direction, and how many words it had.
#[derive(Clone, Copy, PartialEq, Eq, Debug)]
pub struct Transfer {
    pub element: Element,
    pub write: bool,
    pub count: u16,
}

impl Transfer {
    // Whether it goes on with this element and direction.
    pub(crate) fn is_on(self, element: Element, write: bool) -> bool
        ensures { result ≡ goes_on (Some self) (element_number element) write }
    {
        self.element == element && self.write == write
    }
}

#[derive(Clone, Copy, PartialEq, Eq, Debug)]
pub struct Link {
    pub ahs: bool,
    // the open block, by its place in the store
    pub place: Option<usize>,
    pub transfer: Option<Transfer>,
    // a word, or the number of a code
    pub answer: Result<u16, u16>,
}

impl Link {
    // No block is open, and AHS is 0.
    pub const CLOSED: Link = Link {
        ahs: false,
        place: None,
        transfer: None,
        answer: Ok(0),
    };

    // The last answer as the telegram carries it: its word, or the number of its code.
    pub fn info(&self) -> u16
        ensures { result ≡ info_of self.now.answer }
    {
        self.answer.unwrap_or_else(|number| number)
    }
}

// What a step comes to: the word for the master, and the transfer that goes on after it.
#[derive(Clone, Copy, PartialEq, Eq, Debug)]
pub(crate) struct Reply {
    pub(crate) word: u16,
    pub(crate) goes_on: Option<Transfer>,
}

impl Reply {
    // The answer 0, which ends what was under way.
    pub(crate) const DONE: Reply = Reply {
        word: 0,
        goes_on: None,
    };
}

// What the drive tells the channel: its phase, and the command for which an order is out.
#[derive(Clone, Copy, PartialEq, Eq, Debug)]
pub(crate) struct Standing {
    pub(crate) phase: Phase,
    pub(crate) out: Option<Idn>,
}

// The block that is written, by its place in the store, and of a list the length n.
#[derive(Clone, Copy, PartialEq, Eq, Debug)]
pub(crate) struct Target {
    pub(crate) place: usize,
    pub(crate) head: Head,
    pub(crate) n: u16,
}

// What a write needs to know of a block.
#[derive(Clone, Copy, PartialEq, Eq, Debug)]
pub struct Head {
    pub idn: Idn,
    pub keeper: Keeper,
    pub status: u16,
    pub attribute: Attribute,
    pub limits: Option<Limits>,
    pub most: u16,
}

impl From<View<'_>> for Head {
    ghost from_gives = { λ view head. head ≡ head_of (seen view) };

    fn from(view: View<'_>) -> Head {
        Head {
            idn: view.idn,
            keeper: view.keeper,
            status: view.status,
            attribute: view.attribute,
            limits: view.limits,
            most: view.most,
        }
    }
}
