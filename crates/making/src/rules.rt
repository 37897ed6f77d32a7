// The rules on the blocks of a store, one function each.
ghost use Rattle.std.specs.Prelude.{◌≡◌, Bool};
ghost use Rattle.block.specs.Attributes.{is_command};
ghost use Rattle.block.specs.Blocks.{Block, seen};
ghost use Rattle.making.specs.Rules.{address_fits, first_unordered, first_failing, attribute_fits, status_fits, content_fits, command_fits, lower_of, lowest_unmet};

use crate::met::{first_unmet, is_idle, is_kept_by};
use crate::table::DEMANDED;
use block::attribute::Attribute;
use block::idn::Idn;
use block::keeper::Keeper;
use block::view::View;
use store::scan::{Views, first_where};
use store::store::Store;
use store::value::check_value;

// The addresses that a drive may have.
pub fn address_fits(address: u8) -> bool
    ensures { result ≡ address_fits address }
{
    matches!(address, 1..=254)
}

// The first block whose IDN is 0 or not above the one before it.
pub fn first_unordered<S: Store>(store: &S) -> Option<Idn>
    ensures { result ≡ first_unordered 0 (S.Store.blocks store.now) }
{
    let mut before = Idn::NONE;
    for view in Views::of(store) {
        if view.idn <= before {
            return Some(view.idn);
        }
        before = view.idn;
    }
    None
}

// The first block that fails a test.
fn first_failing<S: Store, F: Fn(View<'_>) -> bool>(store: &S, fits: F) -> Option<Idn>
    requires { (v : View) → F.pre fits v }
    ensures { (p : Block → Bool) → ((v : View) (r : Bool) → F.post fits v r → r ≡ p (seen v)) → result ≡ first_failing p (S.Store.blocks store.now) }
{
    first_where(store, |view| !fits(view)).map(|view| view.idn)
}

// The attribute keeps its rules.
fn attribute_fits(view: View) -> bool
    ensures { result ≡ attribute_fits (seen view.entry) }
{
    view.attribute.keeps_rules()
}

// The first block whose attribute breaks its rules.
pub fn first_bad_attribute<S: Store>(store: &S) -> Option<Idn>
    ensures { result ≡ first_failing attribute_fits (S.Store.blocks store.now) }
{
    first_failing(store, attribute_fits)
}

// A parameter's status has bit 8 only, a command's bits 8 and 3 to 0 only.
fn status_fits(attribute: Attribute, status: u16) -> bool
    ensures { result ≡ status_fits (is_command attribute.0) status }
{
    if attribute.is_command() {
        matches!(status, 0..=0xf | 0x100..=0x10f)
    } else {
        matches!(status, 0 | 0x100)
    }
}

// The status fits, what nobody can make valid is valid, and the data pass, invalid ones too.
#[tactic(auto, using(crate::proofs::Scans::ok_is))]
fn content_fits<S: Store>(store: &S, view: View) -> bool
    ensures { result ≡ content_fits (S.Store.blocks store.now) (seen view.entry) }
{
    status_fits(view.attribute, view.status)
        && (view.keeper.may_change() || !view.is_invalid())
        && check_value(store, view.attribute, view.limits, view.content).is_ok()
}

// The first block whose content or status is outside its form.
pub fn first_bad_content<S: Store>(store: &S) -> Option<Idn>
    ensures { result ≡ first_failing (content_fits (S.Store.blocks store.now)) (S.Store.blocks store.now) }
{
    first_failing(store, |view| content_fits(store, view))
}

// A command is kept by the master and has not been started.
fn command_fits(view: View) -> bool
    ensures { result ≡ command_fits (seen view.entry) }
{
    !view.attribute.is_command() || (is_kept_by(Keeper::Master, view) && is_idle(view))
}

// The first command that is not as all commands are.
fn first_bad_command<S: Store>(store: &S) -> Option<Idn>
    ensures { result ≡ first_failing command_fits (S.Store.blocks store.now) }
{
    first_failing(store, command_fits)
}

// The lower of two IDNs that may be there.
fn lower_of(one: Option<Idn>, other: Option<Idn>) -> Option<Idn>
    ensures { result ≡ lower_of one other }
{
    match (one, other) {
        (Some(i), Some(j)) => Some(i.min(j)),
        (i, j) => i.or(j),
    }
}

// The lowest IDN that is missing or different: of the demanded blocks, and of the commands.
pub fn lowest_unmet<S: Store>(store: &S) -> Option<Idn>
    ensures { result ≡ lowest_unmet (S.Store.blocks store.now) }
{
    lower_of(first_unmet(store, &DEMANDED), first_bad_command(store))
}
