// Reasons to refuse a network file.
use nf_net_def::NetRule;
use nf_text::FileFault;

/// A reason to refuse a network file.
pub type NetFault = FileFault<NetRule>;
