//! Takes one artifact more into the tables, one module a table.
pub(crate) mod attached;
pub(crate) mod clusters;
pub(crate) mod contents;
pub(crate) mod files;
pub(crate) mod gone;
pub(crate) mod history;
pub(crate) mod kinds;
pub(crate) mod leaves;
pub(crate) mod links;
pub(crate) mod notes;
pub(crate) mod pages;
pub(crate) mod posts;
pub(crate) mod row;
pub(crate) mod rows;
pub(crate) mod tags;
pub(crate) mod threads;
pub(crate) mod tickets;
