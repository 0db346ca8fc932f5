//! What stands behind the conclusions of the rules of contexts, substitutions, equality and the
//! universe.
//!
//! ```text
//! context_entry(ContextRule::CtxVar, Label::Type)
//! // G >> A, behind ctx G.A: it is premise 0
//! ```
#![tactic(auto)]

mod contexts;
mod equality;
mod instances;
mod sub_face;
mod sub_form;
mod sub_var;
mod sub_wk;
mod sub_wkface;
mod sub_wkname;
mod tm_cong;
mod tm_int;
mod tm_sub;
mod tm_var;
mod tmeq_conv;
mod tmeq_sub;
mod ty_cong;
mod ty_int;
mod tyeq_sub;
mod tyeq_u;
mod universe;

pub use contexts::context_entry;
pub use equality::equality_entry;
pub use instances::instance_entry;
pub use universe::universe_entry;
