//! The policy of a certificate as a graph: the states that it reaches from the starts, what the certificate
//! says of them, and the outcomes of what is done there; and the text of this graph in the DOT language.
#![tactic(auto)]

mod carried;
mod claims;
mod drawing;
mod edge;
mod edges;
mod graph;
mod labels;
mod laws;
mod lines;
mod node;
mod node_kind;
mod nodes;
mod pieces;
mod report;
mod row_states;
mod searching;
mod text;

pub use carried::carried_laws;
pub use drawing::{MOST_NODES, policy_graph};
pub use edge::Edge;
pub use graph::PolicyGraph;
pub use laws::graph_laws;
pub use node::Node;
pub use node_kind::NodeKind;
pub use report::graph_report;
pub use text::graph_text;
