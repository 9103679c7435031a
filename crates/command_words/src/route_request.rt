//! The request for a routing.

/// What `route IN ROUTES CERT` asks for: the names of the design, of the routes and of the certificate, and the
/// settings.
#[derive(Clone, Copy, Debug, Drop)]
pub struct RouteRequest<'a> {
    pub input: &'a str,
    pub routes: &'a str,
    pub certificate: &'a str,
    pub workers: u32,
    pub phases: u32,
    pub rounds: u32,
    pub seed: u64,
    pub budget: Option<u64>,
}
