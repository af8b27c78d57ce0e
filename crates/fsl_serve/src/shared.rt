//! Holds what all sessions share.
use fsl_login::Users;
use fsl_name::Name;
use std::alloc::Global;

/// What all sessions of a server share: the turns on its repository, where memory comes from, the users, and
/// the project's code.
#[derive(Drop)]
pub(crate) struct Serving<'a, T> {
    pub(crate) turns: &'a T,
    pub(crate) alloc: Global,
    pub(crate) users: &'a Users,
    pub(crate) project: Name,
}
