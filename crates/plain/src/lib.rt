// Plain dates and plain windows: what they are is in specs/, and whether a window is plain is decided here.

#![tactic(auto)]

mod date;
mod window;

pub use window::is_plain;
