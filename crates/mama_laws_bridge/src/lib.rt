//! What a bridge keeps, as a table of rows, and why that is enough.
//!
//! A bridge's rules speak of its whole journal. `specs/Table.antt` defines, over what was heard, a row for each live
//! subscription and each open inbox and a flag for each actor that is done, and what an event puts by these alone. The
//! contracts of this crate's functions are laws that tie the two; the calls do nothing.
#![tactic(auto)]

mod laws;

pub use laws::{flags_tell, rows_are_live, table_grows, table_tells};
