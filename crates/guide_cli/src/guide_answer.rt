//! What comes of routes that guides are asked for.

use crate::guided_routes::GuidedRoutes;
use route_judge::Reason;

/// The guides of routes that are accepted, or why they are not.
#[derive(Drop)]
pub enum GuideAnswer {
    Guided(GuidedRoutes),
    No(Reason),
}
