//! The files that a run is about.

/// The names of the design, of the routes, of the certificate to begin with, where there is one, and of the new certificate.
#[derive(Clone, Copy, Debug, Drop)]
pub(crate) struct Names<'a> {
    pub input: &'a str,
    pub routes: &'a str,
    pub certificate: Option<&'a str>,
    pub new_certificate: &'a str,
}
