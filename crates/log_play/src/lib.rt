//! A script played on a campaign whose entries are kept in a log before their lines go out.
#![tactic(auto)]

mod entering;
mod logged;
mod run;

pub use entering::log_all;
pub use logged::Logged;
pub use run::play_logged;
