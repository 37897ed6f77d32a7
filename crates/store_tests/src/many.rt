// The most blocks of a store: 510, in one table or in two that are joined.
use crate::make::{fixed, shown, state};
use block::idn::Idn;
use joined::Joined;
use rows::plan::Plan;
use rows::row::Row;
use std::alloc::{AllocError, Global};
use std::test::Fail;
use store::store::Store;
use table::table::Table;

// Rows of two bytes each, with ascending IDNs from the first on.
fn rows_from(heap: Global, first: u16, n: u16) -> Result<Vec<Row<'static>>, AllocError> {
    (0..n)
        .map(|i| fixed(first.wrapping_add(i), 2 * usize::from(i)))
        .collect(heap)
}

// How many of these rows a table with enough memory shows.
fn count_of(heap: Global, n: u16) -> Result<usize, AllocError> {
    let rows = rows_from(heap, 1, n)?;
    let mut states = vec![in heap; state(2); usize::from(n)]?;
    let mut bytes = [0; 1024];
    Ok(shown(rows.as_slice(), states.as_mut_slice(), &mut bytes))
}

#[test]
fn at_most_510_rows(rt: HostRuntime) -> Result<(), Fail> {
    assert_eq!(rt; count_of(rt.alloc(), 510)?, 510);
    assert_eq!(rt; count_of(rt.alloc(), 511)?, 0);
    Ok(())
}

// What a store of two tables shows: its blocks, whether both, and where two IDNs are.
#[derive(Clone, Copy, PartialEq, Eq, Debug)]
struct Pair {
    count: usize,
    whole: bool,
    near: Option<usize>,
    far: Option<usize>,
}

fn pair_of(heap: Global, n: u16) -> Result<Pair, AllocError> {
    let rows = rows_from(heap, 1, 255)?;
    let more = rows_from(heap, 1000, n)?;
    let plan = Plan::new(rows.as_slice());
    let next = Plan::new(more.as_slice());
    let mut states = [state(2); 255];
    let mut rest = vec![in heap; state(2); usize::from(n)]?;
    let mut bytes = [0; 512];
    let mut spare = [0; 512];
    let first = Table::new(&plan, &mut states, &mut bytes);
    let second = Table::new(&next, rest.as_mut_slice(), &mut spare);
    let both = Joined::new(first, second);
    Ok(Pair {
        count: both.count(),
        whole: both.is_whole(),
        near: both.find(Idn(255)),
        far: both.find(Idn(1000)),
    })
}

#[test]
fn at_most_510_joined(rt: HostRuntime) -> Result<(), Fail> {
    let whole = Pair {
        count: 510,
        whole: true,
        near: Some(254),
        far: Some(255),
    };
    assert_eq!(rt; pair_of(rt.alloc(), 255)?, whole);
    let part = Pair {
        count: 255,
        whole: false,
        near: Some(254),
        far: None,
    };
    assert_eq!(rt; pair_of(rt.alloc(), 256)?, part);
    Ok(())
}
