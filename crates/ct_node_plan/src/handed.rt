//! What plans speak of, handed on to the crates above.

pub use ct_node_state::kinds::{has_records, is_persistent, kind_at, name_of};
pub use ct_node_state::node::Node;
pub use ct_node_state::outs::outs_of;
pub use ct_node_state::phases::{is_present_in, is_serving};
pub use ct_node_state::placing::assigned_all;
pub use ct_node_state::turn::{CoreFault, Turn};
