//! The text of a certificate: what a router says of its routes, and the prices that show its bound.
//!
//! ```text
//! write_cert(desk, Port::CertOut, &cert)?;
//! // grouter certificate 1
//! // nets 1
//! // forced 0
//! // overflow 0
//! // wirelength 2
//! // peak 1/2
//! // bound 1/2
//! // prices 2
//! // 12758
//! // 12758
//! let cert = read_cert(alloc, bytes)?;
//! cert.bound;                               // Some(1/2)
//! cert.prices.list();                       // [12758, 12758]
//! ```
//!
//! It stands on `tree_set` for fractions and budgets, on `gr_desk` to write to, on `text_scan` to read, on `grid_graph`
//! for the limit of budgets, and on `itoa`.
//!
//! Promised: `write_cert` writes exactly the text of the certificate, or some part from its front where a write failed,
//! and takes no memory. `read_cert` answers the certificate that a text of either version has, or its first refusal
//! with its number and place; only want of memory is left open. By the law of `laws.rt` a certificate within the limits
//! of its version reads back, and no text has two certificates.

#![tactic(auto)]

mod cert;
mod cert_error;
mod digits;
mod fraction_text;
mod laws;
mod price_list;
mod ratio;
mod reading;
mod stated;
mod tokens;
mod version;
mod writing;

pub use cert::Cert;
pub use cert_error::CertError;
pub use fraction_text::put_fraction;
pub use laws::written_certificates_read_back;
pub use price_list::PriceList;
pub use reading::read_cert;
pub use writing::{put_labelled_fraction, write_cert};
