//! A design, routes and a certificate, as they were read.

use crate::routed_input::RoutedInput;
use cert_text::Cert;

/// A design with routes, and a certificate.
#[derive(Drop)]
pub struct CertifiedInput {
    pub routed: RoutedInput,
    pub cert: Cert,
}
