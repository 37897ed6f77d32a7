// Catalogues, which nobody changes, and stores that are joined in one way or the other.
use crate::asking::{keeper_at, status_at};
use crate::make::{TEXT, fixed, has_content, row, state};
use block::idn::Idn;
use block::keeper::Keeper;
use joined::Joined;
use rows::plan::Plan;
use rows::row::Row;
use std::process::Abort;
use store::scan::Views;
use store::store::Store;
use table::catalogue::Catalogue;
use table::table::Table;

// The one row of the catalogues: a text that has a keeper.
static PLATE: [Row<'static>; 1] = [Row {
    idn: Idn(0x8010),
    keeper: Keeper::Channel,
    name: b"Type plate",
    attribute: TEXT,
    unit: b"",
    limits: None,
    most: 4,
    start: 0,
}];

#[test]
fn a_catalogue_stays(rt: HostRuntime) {
    let plan = Plan::new(&PLATE);
    let states = [state(2)];
    let bytes = *b"hi..";
    let mut catalogue = Catalogue::new(&plan, &states, &bytes);
    assert!(rt; !catalogue.replace(0, b"no"));
    assert!(rt; !catalogue.set_status(0, 9));
    assert_eq!(rt; keeper_at(&catalogue, 0), Some(Keeper::Nobody));
    assert_eq!(rt; status_at(&catalogue, 0), Some(0));
    assert!(rt; has_content(&catalogue, 0, b"hi"));
}

#[test]
fn a_status_is_set(rt: HostRuntime) {
    let rows = [row(1, TEXT, 4, 0)];
    let plan = Plan::new(&rows);
    let mut states = [state(2)];
    let mut bytes = *b"hi..";
    let mut table = Table::new(&plan, &mut states, &mut bytes);
    assert!(rt; table.set_status(0, 9));
    assert!(rt; !table.set_status(1, 9));
    assert_eq!(rt; keeper_at(&table, 0), Some(Keeper::Master));
    assert_eq!(rt; status_at(&table, 0), Some(9));
}

// Whether two stores list the same blocks in the same order.
fn list_the_same<A: Store, B: Store>(a: &A, b: &B) -> bool {
    a.count() == b.count() && Views::of(a).zip(Views::of(b)).all(|(x, y)| x == y)
}

// Three stores, joined from the left and joined from the right.
fn nest<A, B, C, D, E, F>(rt: &impl Abort, left: (A, B, C), right: (D, E, F))
where
    A: Store + Drop,
    B: Store + Drop,
    C: Store + Drop,
    D: Store + Drop,
    E: Store + Drop,
    F: Store + Drop,
{
    let (a, b, c) = left;
    let (d, e, f) = right;
    let left = Joined::new(Joined::new(a, b), c);
    let right = Joined::new(d, Joined::new(e, f));
    assert_eq!(rt; left.count(), 5);
    assert!(rt; has_content(&left, 2, b"mno"));
    assert_eq!(rt; right.find(Idn(3)), Some(3));
    assert!(rt; list_the_same(&left, &right));
}

#[test]
fn joins_nest_either_way(rt: HostRuntime) {
    let near = [fixed(1, 0), row(2, TEXT, 4, 2)];
    let far = [row(3, TEXT, 4, 0), fixed(1, 4)];
    let head = Plan::new(&near);
    let tail = Plan::new(&far);
    let plate = Plan::new(&PLATE);
    let plate_states = [state(3)];
    let (mut a, mut b) = ([state(2), state(3)], [state(3), state(2)]);
    let (mut c, mut d) = (a, b);
    let (mut p, mut q) = (*b"..abc ", *b"xyz ::");
    let (mut r, mut s) = (p, q);
    let first = Table::new(&head, &mut a, &mut p);
    let second = Catalogue::new(&plate, &plate_states, b"mno ");
    let third = Table::new(&tail, &mut b, &mut q);
    let fourth = Table::new(&head, &mut c, &mut r);
    let fifth = Table::new(&tail, &mut d, &mut s);
    nest(&rt, (first, second, third), (fourth, second, fifth));
}
