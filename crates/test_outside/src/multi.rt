//! Several processors on one memory: small programs, turn by turn and by schedules.

mod programs;
mod schedules;
mod turns;
