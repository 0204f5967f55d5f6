// Runs of a machine over a schedule: ticks in a row, and what they add up to.
#![tactic(auto)]

mod good_schedules;
mod outcomes;
mod planned_ticks;
mod refusals;
mod running;
mod schedules;

pub use good_schedules::Schedule;
pub use outcomes::{Ran, RunFault};
pub use planned_ticks::PlannedTicks;
pub use refusals::ScheduleRefusal;
pub use running::run;
pub use schedules::{judge, levels_at};
