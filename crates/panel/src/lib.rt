// The front panel: a machine with its store and its port card, worked by lines of text. Each line is one
// command, and each answer is one line of named fields.
#![tactic(auto)]

mod answers;
mod commands;
mod executing;
mod fault_fields;
mod holdings;
mod keys;
mod numbers;
mod panels;
mod reading;
mod refusals;
mod run_fields;
mod schedules;
mod settings;
mod step_fields;
mod words;

pub use answers::Answer;
pub use commands::{Command, Mistake};
pub use holdings::Holding;
pub use keys::Key;
pub use panels::Panel;
pub use reading::read_command;
pub use refusals::Refusal;
pub use schedules::read_schedule;
pub use settings::{Setting, read_setting};
pub use words::is_blank;
