// Two stores of any make as one store: the blocks of the first, then those of the second.
#![tactic(auto)]

ghost use Rattle.std.specs.Prelude.{◌≡◌, List};
ghost use Rattle.block.specs.Blocks.{Block};
ghost use Rattle.joined.specs.Bounds.{joined_few, joined_sound};
ghost use Rattle.joined.specs.Joining.{is_whole, joined_blocks, left_out, found_behind, side_of};

use block::idn::Idn;
use block::view::{MOST_BLOCKS, View};
use store::store::Store;

// Holds both stores by value, and may be joined again.
#[derive(Drop)]
pub struct Joined<F, S> {
    pub first: F,
    pub second: S,
}

// The store that a place of the joined list lies in, and the place there.
// stays: no Result or Option, since neither side is the failure or the lack of the other; each call asks its own side for
// itself, since one function for all would take two closures and be longer than a match.
#[derive(Clone, Copy)]
enum Side {
    First(usize),
    Second(usize),
}

impl<F, S> Joined<F, S> {
    pub fn new(first: F, second: S) -> Self
        ensures { result ≡ record { first = first; second = second } }
    {
        Joined { first, second }
    }
}

impl<F: Store, S: Store> Joined<F, S> {
    // Whether both stores are shown: where they have too many blocks together, only the first is.
    pub fn is_whole(&self) -> bool
        ensures { result ≡ is_whole (F.Store.blocks self.now.first) (S.Store.blocks self.now.second) }
    {
        self.first.count() + self.second.count() <= MOST_BLOCKS
    }

    // The place of an IDN that the first store does not have.
    fn find_behind(&self, idn: Idn) -> Option<usize>
        ensures { result ≡ found_behind (F.Store.blocks self.now.first) (S.Store.blocks self.now.second) idn.0 }
    {
        if !self.is_whole() {
            return None;
        }
        Some(self.first.count() + self.second.find(idn)?)
    }

    // A place past the first store lies in the second, or nowhere if only the first is shown: the first
    // then finds no block there.
    fn side(&self, place: usize) -> Side
        ensures { result ≡ side_of (F.Store.blocks self.now.first) (S.Store.blocks self.now.second) place }
    {
        let count = self.first.count();
        if place < count || !self.is_whole() {
            Side::First(place)
        } else {
            Side::Second(place - count)
        }
    }
}

impl<F: Store, S: Store> Store for Joined<F, S> {
    ghost blocks = { λ j. joined_blocks (F.Store.blocks j.first) (S.Store.blocks j.second) };

    // the blocks that are not shown are kept too
    ghost Rest = { F.Store.Rest × S.Store.Rest × List Block };

    ghost rest = { λ j. (F.Store.rest j.first, S.Store.rest j.second, left_out (F.Store.blocks j.first) (S.Store.blocks j.second)) };

    ghost few = { λ j. joined_few (F.Store.blocks j.first) (S.Store.blocks j.second) (F.Store.few j.first) };

    ghost sound = { λ j. joined_sound (F.Store.blocks j.first) (S.Store.blocks j.second) (F.Store.sound j.first) (S.Store.sound j.second) };

    fn count(&self) -> usize {
        let first = self.first.count();
        if self.is_whole() {
            first + self.second.count()
        } else {
            first
        }
    }

    fn find(&self, idn: Idn) -> Option<usize> {
        self.first.find(idn).or_else(|| self.find_behind(idn))
    }

    fn block(&self, place: usize) -> Option<View<'_>> {
        match self.side(place) {
            Side::First(place) => self.first.block(place),
            Side::Second(place) => self.second.block(place),
        }
    }

    fn replace(&mut self, place: usize, bytes: &[u8]) -> bool {
        match self.side(place) {
            Side::First(place) => self.first.replace(place, bytes),
            Side::Second(place) => self.second.replace(place, bytes),
        }
    }

    fn set_status(&mut self, place: usize, status: u16) -> bool {
        match self.side(place) {
            Side::First(place) => self.first.set_status(place, status),
            Side::Second(place) => self.second.set_status(place, status),
        }
    }
}
