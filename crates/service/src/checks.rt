// The checks S-0-0127 and S-0-0128: what they name.
ghost use Rattle.std.specs.Prelude.{◌≡◌, ◌≤◌, [], length, if◌then◌else◌};
ghost use Rattle.block.specs.Numbers.{words_of};
ghost use Rattle.channel.specs.Timings.{timing_names};
ghost use Rattle.service.specs.Names.{timings_of, invalid_among, names_for_phase_3, names_for_phase_4};
ghost use Rattle.service.specs.Words.{pushed, word_bytes};

use crate::active::{is_to_name, valid_value};
use crate::kept::Kept;
use block::idn::Idn;
use block::idns::{
    MDT_LENGTH, PHASE_4_BLOCKS, RECORD_POSITION, T_NCYC, T_SCYC, T1, T1_MIN, T4, T5,
};
use block::value::word_at;
use channel::timing::Timings;
use store::scan::block_of;
use store::store::Store;

// The ring's timings as they stand, each if it is valid.
pub fn timings_of<S: Store>(store: &S) -> Timings
    ensures { result ≡ timings_of (S.Store.blocks store.now) }
{
    Timings {
        ncyc: valid_value(store, T_NCYC),
        scyc: valid_value(store, T_SCYC),
        least: valid_value(store, T1_MIN),
        t5: valid_value(store, T5),
        t1: valid_value(store, T1),
        t4: valid_value(store, T4),
        position: valid_value(store, RECORD_POSITION),
        size: valid_value(store, MDT_LENGTH),
    }
}

// One name more, if it is to be named.
fn push_if(names: &mut Kept, named: bool, idn: Idn)
    ensures { names.new ≡ (if named then pushed names.old idn.0 else names.old) }
{
    if named {
        names.push(idn.0);
    }
}

// The timings to name, in the order of their IDNs.
fn name_timings(names: &mut Kept, timings: &Timings)
    ensures { names.new ≡ word_bytes (timing_names timings.now) }
{
    names.clear();
    let rows = [
        (timings.names_ncyc(), T_NCYC),
        (timings.names_scyc(), T_SCYC),
        (timings.least.is_none(), T1_MIN),
        (timings.t5.is_none(), T5),
        (timings.names_t1(), T1),
        (timings.names_t4(), T4),
        (timings.names_position(), RECORD_POSITION),
        (timings.size.is_none(), MDT_LENGTH),
    ];
    for (named, idn) in rows {
        push_if(names, named, idn);
    }
}

// What S-0-0127 names.
pub(crate) fn name_for_phase_3<S: Store>(store: &S, names: &mut Kept)
    ensures { names.new ≡ word_bytes (names_for_phase_3 (S.Store.blocks store.now)) }
{
    name_timings(names, &timings_of(store));
}

// What S-0-0128 names: the invalid entries of S-0-0019.
pub(crate) fn name_for_phase_4<S: Store>(store: &S, names: &mut Kept)
    ensures { names.new ≡ word_bytes (names_for_phase_4 (S.Store.blocks store.now)) }
{
    names.clear();
    if let Some(list) = block_of(store, PHASE_4_BLOCKS) {
        name_invalid(store, list.content, names);
    }
}

// Names the invalid ones among a list of IDNs.
fn name_invalid<S: Store>(store: &S, entries: &[u8], names: &mut Kept)
    requires entries_len_bound { length entries.now ≤ 1020 }
    requires names_value { names.old ≡ [] }
    ensures { names.new ≡ word_bytes (invalid_among (S.Store.blocks store.now) (words_of entries.now)) }
{
    for pair in entries.chunks_exact(2) {
        let idn = Idn(word_at(pair, 0));
        push_if(names, is_to_name(store, idn), idn);
    }
}
