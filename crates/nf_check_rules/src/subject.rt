// Subjects of the rules.
use nf_graph::{LinkId, NodeId};

/// The node or link that breaks a rule.
pub type Subject = nf_check_def::Subject<NodeId, LinkId>;
