//! Scrubs. Where a large value is held, a function has one exit: so conditions are joined by `&`, and a value is let go by a call, before
//! the answer.
mod crashes;
mod damaged;
mod files;
mod scrubs;
