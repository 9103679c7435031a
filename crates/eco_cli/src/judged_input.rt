//! What was read of a routed design.

use crate::judged_routes::JudgedRoutes;
use route_judge::Reason;

/// A routed design, or why its routes are not accepted.
#[derive(Drop)]
pub enum JudgedInput {
    Routed(JudgedRoutes),
    Objected(Reason),
}
