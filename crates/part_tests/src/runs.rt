//! The longest run: its cycles are counted, and not listed.
use bitbang::StepBytes;
use jt_tap::State;
use svf_programs::{Action, Step};
use tck_cycles::Source;

/// The most cycles of a run.
const MOST: u64 = 4_294_967_295;

#[test]
fn the_longest_run(rt: HostRuntime) {
    let step = Step {
        number: 1,
        what: Action::Run {
            run: State::Idle,
            cycles: MOST,
            end: State::Reset,
        },
    };
    // three cycles lead there (EXIT2, UPDATE and IDLE) and three away
    let mut source = Source::of(State::DrPause, &step);
    assert_eq!(rt; (source.left(), source.reads()), (3 + MOST + 3, 0));
    let mut bytes = StepBytes::of(State::DrPause, &step);
    assert_eq!(rt; bytes.left(), 2 * (3 + MOST + 3) + 1);
    for gone in 0..9u64 {
        let _ = source.next();
        assert_eq!(rt; source.left(), 3 + MOST + 3 - 1 - gone);
    }
    assert_eq!(rt; bytes.next(), Some(b'2'));
    assert_eq!(rt; bytes.left(), 2 * (3 + MOST + 3));
}
