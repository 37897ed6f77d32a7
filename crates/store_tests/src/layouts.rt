// Rows, states or memory that break the rules mean the empty list.
use crate::make::{WORDS, fixed, row, shown, state};

#[test]
fn areas_lie_one_after_another(rt: HostRuntime) {
    let mut states = [state(2), state(2)];
    let mut bytes = [0; 16];
    let sound = [fixed(1, 0), fixed(2, 2)];
    assert_eq!(rt; shown(&sound, &mut states, &mut bytes), 2);
    let gap = [fixed(1, 0), fixed(2, 4)];
    assert_eq!(rt; shown(&gap, &mut states, &mut bytes), 0);
    let overlap = [fixed(1, 0), fixed(2, 1)];
    assert_eq!(rt; shown(&overlap, &mut states, &mut bytes), 0);
    let late = [fixed(1, 2), fixed(2, 4)];
    assert_eq!(rt; shown(&late, &mut states, &mut bytes), 0);
}

#[test]
fn states_and_memory_match_the_rows(rt: HostRuntime) {
    let rows = [fixed(1, 0), row(2, WORDS, 4, 2)];
    assert_eq!(rt; shown(&rows, &mut [state(2), state(4)], &mut [0; 6]), 2);
    assert_eq!(rt; shown(&rows, &mut [state(2)], &mut [0; 6]), 0);
    assert_eq!(rt; shown(&rows, &mut [state(2); 3], &mut [0; 6]), 0);
    assert_eq!(rt; shown(&rows, &mut [state(2), state(4)], &mut [0; 5]), 0);
}

#[test]
fn a_state_with_an_illegal_length(rt: HostRuntime) {
    let rows = [fixed(1, 0), row(2, WORDS, 4, 2)];
    assert_eq!(rt; shown(&rows, &mut [state(0), state(4)], &mut [0; 6]), 0);
    assert_eq!(rt; shown(&rows, &mut [state(4), state(4)], &mut [0; 6]), 0);
    assert_eq!(rt; shown(&rows, &mut [state(2), state(3)], &mut [0; 6]), 0);
    assert_eq!(rt; shown(&rows, &mut [state(2), state(6)], &mut [0; 6]), 0);
}
