//! The request to route again.

/// What `reroute IN NEW` and `reroute IN ROUTES NEW` ask for: the names of the design, of the routes to begin with, where there
/// are any, and of the routes to be written, and the settings.
#[derive(Clone, Copy, Debug, Drop)]
pub struct RerouteRequest<'a> {
    pub input: &'a str,
    pub routes: Option<&'a str>,
    pub output: &'a str,
    pub rounds: u32,
    pub passes: u32,
    pub workers: u32,
    pub seed: u64,
}
