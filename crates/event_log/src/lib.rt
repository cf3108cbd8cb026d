//! A bounded log of event notifications (ANSI/ASHRAE 135-2020, 12.27), and the ranges by which it is read (15.8).
//!
//! Memory is taken when a log is made, and never after.
#![tactic(auto)]

mod by_hundredths;
mod event_log;
mod log_range;
mod log_record;
mod log_site;
mod numbers;
mod order;

pub use event_log::EventLog;
pub use log_range::LogRange;
pub use log_record::LogRecord;
pub use log_site::{LogSite, copy_of_log, copy_of_logs};
pub use numbers::number_back;
