// The fields of an address's message, kept as its attributes come, and the words of its request.
#![tactic(auto)]

pub mod del_addr;
pub mod new_addr;

pub use del_addr::DelAddr;
pub use new_addr::NewAddr;
