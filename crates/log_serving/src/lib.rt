//! An evening that is served with a log: sessions at one hall, and beside it a keeper that puts the history's entries behind a log on a
//! disk. A session's output takes no byte that tells of an entry before that entry is safe from a crash.
#![tactic(auto)]

mod answers;
mod evening;
mod service;

pub use answers::LogServed;
pub use service::serve_logged;
