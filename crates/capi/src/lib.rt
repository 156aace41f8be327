// The calls for C: functions on numbers and lent arrays, each the function of the crate that it
// names, with that function's promise. A slice is passed as a pointer and a length. No function has
// a requires: an output array that is too short, a mode or an operation that is none, or a number
// that is too large for its place is answered by 9.
#![tactic(auto)]

mod drawings;
mod fields;
mod images;
mod instructions;
mod pixels;
mod plans;

pub use drawings::{bh_draw, bh_fill_states, bh_outcome};
pub use fields::{bh_field_cycles, bh_field_read, bh_field_write, bh_move_states};
pub use images::{bh_changed, bh_fill_image};
pub use instructions::bh_fetch;
pub use pixels::{bh_drav, bh_pixt_from_linear, bh_pixt_from_xy, bh_pixt_to_linear, bh_pixt_to_xy};
pub use plans::{bh_experiment, bh_lines, bh_plan_read, bh_put_heading, bh_put_refused};
