// Builds a store of three joined parts, lists it, changes it, and lists what changed.
#![tactic(auto)]

mod line;
mod sample;
mod words;

use block::idn::Idn;
use block::idns::T_NCYC;
use joined::Joined;
use rows::plan::Plan;
use sample::{ENCODER_ERRORS, TYPE_PLATE};
use std::alloc::{AllocError, Global};
use std::io;
use store::scan::Views;
use store::store::Store;
use table::catalogue::Catalogue;
use table::table::Table;

// Every block as a line, in the order of the store.
fn lines<S: Store>(heap: Global, store: &S) -> Result<Vec<String>, AllocError> {
    Views::of(store)
        .map(|view| line::line(heap, view))
        .try_collect(heap)
}

// Does something to one block, and tells what it came to.
// stays: six parameters, which the two callers below fill in and nobody else.
fn change<S: Store, F: FnOnce(&mut S, usize) -> bool>(
    rt: &HostRuntime,
    store: &mut S,
    verb: &str,
    success: &str,
    idn: Idn,
    act: F,
) -> io::Result<()>
    requires { F.IsAlwaysCallable act }
{
    let Some(place) = store.find(idn) else {
        return println!(rt; "{verb} {idn}: no such block");
    };
    let answer = if act(store, place) {
        success
    } else {
        "refused, nothing changed"
    };
    println!(rt; "{verb} {idn}: {answer}")
}

fn replace<S: Store>(rt: &HostRuntime, store: &mut S, idn: Idn, bytes: &[u8]) -> io::Result<()> {
    change(rt, store, "replace", "replaced", idn, |store, place| {
        store.replace(place, bytes)
    })
}

fn set_status<S: Store>(rt: &HostRuntime, store: &mut S, idn: Idn, status: u16) -> io::Result<()> {
    change(rt, store, "status", "set", idn, |store, place| {
        store.set_status(place, status)
    })
}

// Prints those lines that differ from what they were.
fn print_changed(rt: &HostRuntime, before: &Vec<String>, after: &Vec<String>) -> io::Result<()> {
    for (was, is) in before.iter().zip(after.iter()) {
        if was != is {
            rt.println(is)?;
        }
    }
    Ok(())
}

// Lists a store, changes one value and one status, tries what must fail, and lists what changed.
fn tour<S: Store>(rt: &HostRuntime, store: &mut S) -> io::Result<()> {
    let heap = rt.alloc();
    let before = lines(heap, store)?;
    for text in before.iter() {
        rt.println(text)?;
    }
    replace(rt, store, T_NCYC, &[0xd0, 0x07])?;
    set_status(rt, store, T_NCYC, 0)?;
    let errors = [1, 0, 0, 0, 2, 0, 0, 0, 3, 0, 0, 0];
    replace(rt, store, ENCODER_ERRORS, &errors)?;
    replace(rt, store, TYPE_PLATE, b"SV-500")?;
    replace(rt, store, ENCODER_ERRORS, &[1, 2, 3])?;
    let after = lines(heap, store)?;
    print_changed(rt, &before, &after)
}

fn main(rt: HostRuntime) -> io::Result<()> {
    let timings = Plan::new(&sample::TIMINGS);
    let mut timing_states = sample::TIMING_STATES;
    let mut timing_bytes = sample::TIMING_BYTES;
    let first = Table::new(&timings, &mut timing_states, &mut timing_bytes);
    let plate = Plan::new(&sample::PLATE);
    let plate_states = sample::PLATE_STATES;
    let plate_bytes = sample::PLATE_BYTES;
    let second = Catalogue::new(&plate, &plate_states, &plate_bytes);
    let axis = Plan::new(&sample::AXIS);
    let mut axis_states = sample::AXIS_STATES;
    let mut axis_bytes = sample::AXIS_BYTES;
    let third = Table::new(&axis, &mut axis_states, &mut axis_bytes);
    let inner = Joined::new(first, second);
    let mut store = Joined::new(inner, third);
    tour(&rt, &mut store)
}
