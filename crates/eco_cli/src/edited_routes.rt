//! An edited design and its routes.

use crate::eco_report::EcoReport;
use eco_route::Eco;

/// A routed design behind all its edits, and what is reported of it.
#[derive(Drop)]
pub struct EditedRoutes {
    pub eco: Eco,
    pub report: EcoReport,
}
