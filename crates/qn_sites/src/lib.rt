//! Sites with their legs and operators: the kinds that are built in, and sites of one's own.
//!
//! For operator sums and for documents. It hands on `SiteTable`, and its operators as rules.
#![tactic(auto)]

mod checks;
mod fault;
mod given;
mod kind;
mod kinds;
mod name;
mod operator;
mod rules;
mod site;

pub use checks::op_fault;
pub use fault::SiteFault;
pub use given::own;
pub use kind::builtin;
pub use name::Name;
pub use operator::OpTable;
pub use rules::SiteRules;
pub use site::SiteTable;
