//! The top call of the program: it reads the words of a command, does what they mean over a shelf, a source of seeds and
//! a sink that are handed in, and answers the status.
#![tactic(auto)]

mod rehearse;
mod top;

pub use commands::{
    a_move_carries_polynomials, a_move_keeps_the_key, a_move_of_sound_files_has_a_word,
    a_move_without_a_word_names_its_lane, a_next_period_begins_with_one_change,
    a_refresh_adds_shares_of_zero, a_refresh_keeps_the_key,
    created_share_files_lie_on_one_polynomial, nobody_is_late_uncut, who_is_late_was_cut,
};
pub use keyroom::{Status, What};
pub use party_crew::{Crew, Pace};
pub use top::{
    honest_files_are_recovered, honest_files_work, one_meaning, one_status,
    one_status_where_nobody_is_cut, run,
};
