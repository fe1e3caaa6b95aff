// What the events of a run print.
mod answers;
mod closing;
mod lines;
mod names;

pub use answers::{add_command, add_frame, add_restart};
pub use closing::add_closing;
pub use lines::{
    add_busy, add_drop, add_gone, add_idle, add_idle_down, add_idle_up, add_lost, add_none,
};
