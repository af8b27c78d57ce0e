//! Has a module for each command.

pub(crate) mod checkin;
pub(crate) mod clone;
pub(crate) mod generating;
pub(crate) mod ingest;
pub(crate) mod init;
pub(crate) mod pull_local;
pub(crate) mod put;
pub(crate) mod question;
pub(crate) mod scrub;
pub(crate) mod serve;
pub(crate) mod shun;
pub(crate) mod sync;
pub(crate) mod trees;
pub(crate) mod unshun;
pub(crate) mod unversioned;
pub(crate) mod uv_sync;
