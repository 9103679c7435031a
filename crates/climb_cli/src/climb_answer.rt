//! What comes of routes and a certificate that are to climb.

use crate::climbed_cert::ClimbedCert;
use route_judge::Reason;

/// The new certificate, or the judge's reason against the given one or the routes.
#[derive(Drop)]
pub enum ClimbAnswer {
    Climbed(ClimbedCert),
    No(Reason),
}
