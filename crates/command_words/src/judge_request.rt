//! The request to judge routes.

/// What `judge IN ROUTES CERT` asks for: the names of the design, of the routes and of the certificate.
#[derive(Clone, Copy, Debug, Drop)]
pub struct JudgeRequest<'a> {
    pub input: &'a str,
    pub routes: &'a str,
    pub certificate: &'a str,
}
