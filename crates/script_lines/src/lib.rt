//! The lines of a script, read from a source, and the lines of a report, written as text.
//!
//! A script is read in one pass, through one buffer that is used again. Blank lines and comments are passed over and
//! counted; what is outside the grammar is refused by its line's number.
#![tactic(auto)]

mod address;
mod line;
mod lines;
mod names;
mod number;
mod object;
mod packet_line;
mod pending;
mod report;
mod session_line;
mod value;
mod words;

pub use address::read_peer;
pub use bac_values::ReportLine;
pub use line::{Grammar, Line, Says};
pub use lines::{LineFault, Lines};
pub use names::kind_name;
pub use number::{signed, unsigned};
pub use object::{kind_named, read_object};
pub use packet_line::PacketLine;
pub use report::{object_text, write_report};
pub use value::read_bits;
