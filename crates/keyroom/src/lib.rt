//! Keys of documents on a shelf: the words of a command, what is printed, the statuses, and the commands that need no
//! other member at work: recovery of a key, the check of its files, and sealing and opening a document.
#![tactic(auto)]

mod check;
mod command;
mod decoding;
mod document;
mod laws;
mod open;
mod plan;
mod recover;
mod seal;
mod sound;
mod state;
mod status;
mod steps;
mod text;
mod work;

pub use check::{Checked, check_key, plan_check};
pub use command::{Command, read_words};
pub use document::{Direction, open_doc, plan_document, seal_doc};
pub use laws::{
    a_box_is_opened, document_numbers_rise, honest_files_give_the_key,
    honest_files_give_the_states, honest_files_have_a_key, honest_files_open_what_was_sealed,
    one_check, one_recovery, one_work, what_was_sealed_is_opened,
};
pub use plan::{Change, Plan, carry_out, make_all};
pub use recover::{Recovered, plan_recover, recover_key};
pub use sound::{check_period, check_sound, is_down, is_down_in_move, sound_count};
pub use state::{MemberState, StateList};
pub use status::{Status, What};
pub use steps::{Found, check_free, files_of, get, now_of};
pub use text::{create_text, move_text, now_name, put_hex, refresh_text, share_name};
pub use work::Sealed;
