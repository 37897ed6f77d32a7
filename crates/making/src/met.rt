// Whether a store has the demanded blocks.
ghost use Rattle.std.specs.Prelude.{◌≡◌};
ghost use Rattle.block.specs.Blocks.{seen};
ghost use Rattle.making.specs.Met.{bytes_of, is_zero, is_idle, is_kept_by, form_fits, asked_fits, demand_met, first_unmet};

use crate::table::{Asked, Demand, Form};
use block::attribute::Attribute;
use block::idn::Idn;
use block::keeper::Keeper;
use block::view::View;
use store::scan::block_of;
use store::store::Store;

// Data 0, as two bytes.
fn is_zero(bytes: &[u8]) -> bool
    ensures { result ≡ is_zero bytes.now }
{
    matches!(bytes, [0, 0])
}

// Data 0 and status 0, as of a command that has not been started.
// stays: the status as a number, since its bits are tested and a block may hold any.
pub fn is_idle(view: View) -> bool
    ensures { result ≡ is_idle (seen view.entry) }
{
    is_zero(view.content) && view.status == 0
}

// Whether this keeper has the block.
pub fn is_kept_by(keeper: Keeper, view: View) -> bool
    ensures { result ≡ is_kept_by keeper (seen view.entry) }
{
    view.keeper == keeper
}

// How many bytes the data of an IDN have; none where there is no such block.
fn bytes_of<S: Store>(store: &S, idn: Idn) -> usize
    ensures { result ≡ bytes_of (S.Store.blocks store.now) idn.0 }
{
    block_of(store, idn).map_or(0, |view| view.content.len())
}

// An attribute of the demanded form.
fn form_fits(form: Form, attribute: Attribute) -> bool
    ensures { result ≡ form_fits form attribute.0 }
{
    match form {
        Form::Parameter(code, kind) => {
            !attribute.is_command()
                && attribute.length_code() == Some(code)
                && attribute.data_type() == Some(kind)
        }
        Form::Command => attribute.is_command(),
    }
}

// What else is asked of a demanded block.
fn asked_fits<S: Store>(store: &S, asked: Asked, view: View) -> bool
    ensures { result ≡ asked_fits (S.Store.blocks store.now) asked (seen view.entry) }
{
    match asked {
        Asked::Nothing => true,
        Asked::Zero => is_zero(view.content),
        Asked::Idle => is_idle(view),
        Asked::Room(bytes) => view.most >= bytes,
        Asked::RoomFor(idn) => usize::from(view.most) >= bytes_of(store, idn),
    }
}

// The demanded block is there, and is as asked.
fn demand_met<S: Store>(store: &S, demand: &Demand) -> bool
    ensures { result ≡ demand_met (S.Store.blocks store.now) demand.now }
{
    block_of(store, demand.idn).is_some_and(|view| {
        is_kept_by(demand.keeper, view)
            && form_fits(demand.form, view.attribute)
            && asked_fits(store, demand.asked, view)
    })
}

// The first demand that is not met.
pub fn first_unmet<S: Store>(store: &S, demands: &[Demand]) -> Option<Idn>
    ensures { result ≡ first_unmet (S.Store.blocks store.now) demands.now }
{
    demands
        .iter()
        .find(|demand| !demand_met(store, demand))
        .map(|demand| demand.idn)
}
