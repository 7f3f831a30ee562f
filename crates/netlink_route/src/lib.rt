// The fields of a route's message, kept as its attributes come, and the words of its requests.
#![tactic(auto)]

pub mod metrics;
pub mod route;

pub use metrics::Metrics;
pub use route::Route;
