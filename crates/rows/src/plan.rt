// Rows that were checked once. Later calls rely on it and test no row again.
ghost use Rattle.std.specs.Prelude.{◌≡◌, ◌≤◌, true, map, length};
ghost use Rattle.block.specs.Lists.{most_blocks};
ghost use Rattle.rows.specs.Rows.{laid_from, size_of, ascends, row_idn};

use crate::row::Row;

// stays: a flag, since it notes a test that is made once, and the invariant says what it means.
#[derive(Clone, Copy)]
pub struct Plan<'r> {
    pub(crate) rows: &'r [Row<'r>],
    pub(crate) size: usize,
    pub(crate) ascending: bool,
    ghost few: { length rows.now ≤ most_blocks },
    ghost laid: { laid_from 0 rows.now ≡ true },
    ghost sized: { size ≡ size_of rows.now },
    ghost rises: { ascending ≡ ascends (map row_idn rows.now) },
}
