// The store trait: the drive is proved against its ghost members alone.
ghost use Rattle.std.specs.Prelude.{◌≡◌, ◌≤◌, true, List, length, if◌then◌else◌};
ghost use Rattle.std.specs.List.{slice_get};
ghost use Rattle.std.specs.Option.{option_map};
ghost use Rattle.block.specs.Blocks.{Block, seen};
ghost use Rattle.block.specs.Lists.{most_blocks, place_of, all_kept, changed, with_content, with_status, may_replace, may_mark};

use block::idn::Idn;
use block::view::View;

pub trait Store {
    // the list of blocks that the store means
    ghost blocks: { Self → List Block };

    // what else the store keeps, which no call of the trait changes
    ghost Rest: { Type 0 };

    ghost rest: { Self → Rest };

    // the bounds: at most 510 blocks, and each keeps the block rules
    ghost few: { (s : Self) → length (blocks s) ≤ most_blocks };

    ghost sound: { (s : Self) → all_kept (blocks s) ≡ true };

    fn count(&self) -> usize
        ensures { result ≡ length (blocks self.now) };

    // The first place of an IDN.
    fn find(&self, idn: Idn) -> Option<usize>
        ensures { result ≡ place_of (blocks self.now) idn.0 };

    // Every part of the block at a place.
    fn block(&self, place: usize) -> Option<View<'_>>
        ensures { option_map seen result ≡ slice_get (blocks self.now) place };

    // Replaces the data of one block, or refuses and changes nothing.
    fn replace(&mut self, place: usize, bytes: &[u8]) -> bool
        ensures value { result ≡ may_replace (slice_get (blocks self.old) place) (length bytes.now) }
        ensures after { blocks self.new ≡ (if result then changed (blocks self.old) place (with_content bytes.now) else blocks self.old) }
        ensures rest { rest self.new ≡ rest self.old };

    // Sets the data status of one block, or refuses and changes nothing.
    fn set_status(&mut self, place: usize, status: u16) -> bool
        ensures value { result ≡ may_mark (slice_get (blocks self.old) place) }
        ensures after { blocks self.new ≡ (if result then changed (blocks self.old) place (with_status status) else blocks self.old) }
        ensures rest { rest self.new ≡ rest self.old };
}
