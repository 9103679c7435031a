//! What is to be edited.

use crate::judged_routes::JudgedRoutes;
use edit_text::Edit;
use route_judge::Reason;

/// A routed design and edits of it; or why its routes are not accepted.
#[derive(Drop)]
pub enum EcoInput {
    Edits {
        routed: JudgedRoutes,
        edits: Vec<Edit>,
    },
    Objected(Reason),
}
