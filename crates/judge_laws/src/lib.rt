//! Laws of the judge: what it has to say of routes that are written for sets that join their nets, and of a certificate that
//! claims what is true of them.
//!
//! It stands on `route_judge` for the judgement, on `route_text` for the blocks that are written, on `cert_text` for
//! certificates, on `ispd_reader` for the design of a text, and on `dual_bound`, `edge_prices`, `tree_set`, `grid_graph` and
//! `grid_base`. But for the prices that a certificate lists (`open_prices`) nothing is computed here.
//!
//! Promised: a design, sets that join its nets without walls and a true certificate of them have one judgement, a yes, and the
//! judge measures what the certificate states. So whoever writes down what it knows to be true is never refused. Routes and a
//! certificate have one verdict, and so have the texts of a design, of routes and of a certificate, whatever design is read of
//! them. A certificate that is accepted stays so with the bound at other prices, and its text reads back. Routes that are accepted
//! alone are accepted with the certificate of what they measure.

#![tactic(auto)]

mod laws;
mod listing;

pub use laws::{
    alike_designs_are_judged_alike, certificates_of_routes_are_accepted,
    certificates_with_another_bound_are_accepted, one_verdict, texts_have_one_verdict,
    true_certificates_read_back, true_claims_are_accepted, written_routes_are_accepted,
};
pub use listing::open_prices;
