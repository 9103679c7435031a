//! A certificate that a climb came to.

use cert_text::Cert;

/// A certificate with the prices of the best price list of a climb, and the number of the turn that came to them; 0 is the given
/// list.
#[derive(Drop)]
pub struct ClimbedCert {
    pub cert: Cert,
    pub turn: u32,
}
