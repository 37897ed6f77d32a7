// The first place of an IDN among rows: by bisection where they ascend, else by a scan.
ghost use Rattle.std.specs.Prelude.{◌≡◌, true, map};
ghost use Rattle.rows.specs.Rows.{ascends, row_idn, place_in};

use crate::plan::Plan;
use crate::row::Row;
use block::idn::Idn;

fn scan(rows: &[Row], idn: Idn) -> Option<usize>
    ensures { result ≡ place_in (map row_idn rows.now) idn.0 }
{
    rows.iter().position(|row| row.idn == idn)
}

fn bisect(rows: &[Row], idn: Idn) -> Option<usize>
    requires { ascends (map row_idn rows.now) ≡ true }
    ensures { result ≡ place_in (map row_idn rows.now) idn.0 }
{
    rows.binary_search_by_key(&idn, |row| row.idn).ok()
}

impl Plan<'_> {
    // The first place of an IDN.
    pub(crate) fn find(&self, idn: Idn) -> Option<usize>
        ensures { result ≡ place_in (map row_idn self.now.rows.now) idn.0 }
    {
        if self.ascending {
            bisect(self.rows, idn)
        } else {
            scan(self.rows, idn)
        }
    }
}
