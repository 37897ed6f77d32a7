// The check of rows: block rules, areas one after another, and whether the IDNs ascend.
ghost use Rattle.std.specs.Prelude.{◌≡◌, true, false, map, MatchOption};
ghost use Rattle.rows.specs.Rows.{laid_out, size_of, ascends, row_idn, planned};

use crate::plan::Plan;
use crate::row::Row;
use block::view::MOST_BLOCKS;

// The bytes of all areas together, where the rows keep the rules.
fn measure(rows: &[Row]) -> Option<usize>
    ensures { MatchOption result (laid_out rows.now ≡ false) (λ n. (laid_out rows.now ≡ true) × (n ≡ size_of rows.now)) }
{
    if rows.len() > MOST_BLOCKS {
        return None;
    }
    let mut from = 0;
    for row in rows {
        if row.start != from || !row.keeps_rules() {
            return None;
        }
        from += row.area();
    }
    Some(from)
}

// Whether each row's IDN is above the one before it.
fn ascend(rows: &[Row]) -> bool
    ensures { result ≡ ascends (map row_idn rows.now) }
{
    rows.is_sorted_by(|before, after| before.idn < after.idn)
}

impl<'r> Plan<'r> {
    // Checks rows once; rows that break the rules count as none.
    pub fn new(rows: &'r [Row<'r>]) -> Plan<'r>
        ensures { result.rows.now ≡ planned rows.now }
    {
        match measure(rows) {
            Some(size) => Plan {
                rows,
                size,
                ascending: ascend(rows),
            },
            None => Plan {
                rows: &[],
                size: 0,
                ascending: true,
            },
        }
    }
}
