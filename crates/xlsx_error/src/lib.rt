//! Why reading a workbook fails.
//!
//! One room, `error`: `XlsxError`, whose variants are the original's, and what the refusals of the
//! layers below become. It stands by itself, so that what reads sections needs neither values nor
//! decimals.
#![tactic(auto)]

mod equality;
mod error;

pub use equality::equality_is_by_all_fields;
pub use error::XlsxError;
