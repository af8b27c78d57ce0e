//! Makes the answers of commands: statuses, texts and reports.

pub(crate) mod answer;
pub(crate) mod due;
pub(crate) mod fault;
pub(crate) mod ingest_report;
pub(crate) mod reporting;
pub(crate) mod status;
pub(crate) mod sync_due;
pub(crate) mod sync_text;
