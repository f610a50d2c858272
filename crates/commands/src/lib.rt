//! The commands whose members run a phase: what a create, a refresh and a move will do, planned from what the shelf holds.
#![tactic(auto)]

mod changes;
mod create;
mod create_phase;
mod down;
mod drill;
mod holders;
mod lateness;
mod laws;
mod moving;
mod moving_phase;
mod phase;
mod refresh;
mod refresh_phase;
mod running;
mod seeds;
mod standing;

pub use create::plan_create;
pub use create_phase::{create_minds, run_create};
pub use down::{down_marks, drilled_marks, moving_marks};
pub use laws::{
    a_move_carries_polynomials, a_move_keeps_the_key, a_move_of_sound_files_has_a_word,
    a_move_without_a_word_names_its_lane, a_next_period_begins_with_one_change,
    a_refresh_adds_shares_of_zero, a_refresh_keeps_the_key,
    created_share_files_lie_on_one_polynomial, nobody_is_late_uncut, who_is_late_was_cut,
};
pub use moving::plan_move;
pub use moving_phase::{Bounds, Moved, move_minds, run_move};
pub use phase::Phase;
pub use refresh::plan_refresh;
pub use refresh_phase::{refresh_minds, run_refresh};
pub use standing::Asked;
