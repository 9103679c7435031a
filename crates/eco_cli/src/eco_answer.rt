//! What comes of edits.

use crate::edited_routes::EditedRoutes;
use crate::refused_edit::RefusedEdit;

/// The routes of the edited design, or the edit that is refused.
#[derive(Drop)]
pub enum EcoAnswer {
    Edited(EditedRoutes),
    Refused(RefusedEdit),
}
