// The adapters by name, on every stream.
#![tactic(auto)]

pub mod stream_ext;
