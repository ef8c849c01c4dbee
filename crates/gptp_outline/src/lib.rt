//! The rows of a document in TOML, and the lines at which they begin, by the grammar that reads it.
#![tactic(auto)]

mod counter;
mod inline;
mod outline;
mod row;
mod value;

pub use inline::{array_keys, table_keys};
pub use outline::rows;
pub use row::{Row, RowKind};
