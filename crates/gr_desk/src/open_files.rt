//! The files that a desk over files has open.

ghost use Rattle.std.specs.Prelude.{◌≡◌, None};
ghost use Rattle.std.specs.Borrow.{sem};
ghost use Rattle.gr_desk.specs.OpenFiles.{file_at};
ghost use Rattle.gr_desk.specs.LentFiles.{LendsPlace};

use crate::port::Port;

/// The file at each port, where one is open.
#[derive(Drop)]
pub(crate) struct OpenFiles<F> {
    input: Option<F>,
    routes_in: Option<F>,
    cert_in: Option<F>,
    edits_in: Option<F>,
    routes_out: Option<F>,
    cert_out: Option<F>,
    design_out: Option<F>,
    guide_out: Option<F>,
    map_out: Option<F>,
    report: Option<F>,
}

impl<F> OpenFiles<F> {
    /// No file anywhere.
    pub fn none() -> OpenFiles<F>
        ensures { (p : Port) → file_at result p ≡ None }
    {
        OpenFiles {
            input: None,
            routes_in: None,
            cert_in: None,
            edits_in: None,
            routes_out: None,
            cert_out: None,
            design_out: None,
            guide_out: None,
            map_out: None,
            report: None,
        }
    }

    /// The place of a port's file.
    pub fn at_mut(&mut self, port: Port) -> &mut Option<F>
        ensures* lends { sem 𝓛 (LendsPlace F.row self.entry port result) }
        ensures file { result.now ≡ file_at self.old port }
    {
        match port {
            Port::In => &mut self.input,
            Port::RoutesIn => &mut self.routes_in,
            Port::CertIn => &mut self.cert_in,
            Port::EditsIn => &mut self.edits_in,
            Port::RoutesOut => &mut self.routes_out,
            Port::CertOut => &mut self.cert_out,
            Port::DesignOut => &mut self.design_out,
            Port::GuideOut => &mut self.guide_out,
            Port::MapOut => &mut self.map_out,
            Port::Report => &mut self.report,
        }
    }
}
