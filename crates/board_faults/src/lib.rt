//! Single faults of the nets of a board: an open joint, a pull that is missing or the wrong one, a net that is stuck, a
//! bridge of two nets. Each may show in several ways, since nobody knows what a pin that floats reads, or which driver
//! wins on a bridge; each way is a board with other nets. Some can show to no program: by what pins can drive, and
//! which of them are read.
#![tactic(auto)]

mod faulty;
mod judging;
mod kinds;
mod laws;
mod listed;
mod nets;
mod planes;
mod sight;
mod together;

pub use board_chain::Chain;
pub use faulty::{bench_of, wire_way};
pub use judging::{Judged, JudgedWay, Verdict, judge_way};
pub use kinds::{Fault, Way, Winner};
pub use laws::{
    every_fault_has_a_meaning_without_strings, every_program_misses_what_is_invisible,
    faults_compute, invisible_faults_are_not_captured, one_play_serves_all_faults,
    one_run_serves_other_nets, registers_differ_by_what_stays, what_stays_computes,
    whole_scans_leave_nothing,
};
pub use listed::{Faults, next_faults, ways_of};
pub use nets::{joined, nets_with, pull_to, rest_pull, turned};
pub use planes::{DrivenWords, bridge_words, differing};
pub use play_direct::{Board, play_opening, play_program, play_step};
pub use sight::{Sights, bridge_sees, bridge_shows, is_invisible, pull_at, sights_of};
pub use together::{Driven, pulled};
