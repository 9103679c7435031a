//! The ports that bytes come from and go to.

ghost use Rattle.std.specs.Prelude.{◌≡◌, ◌<◌};
ghost use Rattle.gr_desk.specs.Ports.{is_input, is_output, number};

/// One port of the program: what it reads, what it writes, and its report.
#[derive(Clone, Copy, Debug, PartialEq, Eq)]
pub enum Port {
    In,
    RoutesIn,
    CertIn,
    EditsIn,
    RoutesOut,
    CertOut,
    DesignOut,
    GuideOut,
    MapOut,
    Report,
}

impl Port {
    /// Whether the program reads from this port.
    pub fn is_input(self) -> bool
        ensures { result ≡ is_input self }
    {
        matches!(
            self,
            Port::In | Port::RoutesIn | Port::CertIn | Port::EditsIn
        )
    }

    /// Whether the program writes a file at this port. `Report` is neither input nor output.
    pub fn is_output(self) -> bool
        ensures { result ≡ is_output self }
    {
        matches!(
            self,
            Port::RoutesOut | Port::CertOut | Port::DesignOut | Port::GuideOut | Port::MapOut
        )
    }

    /// The place of this port among the ten.
    pub(crate) fn number(self) -> usize
        ensures number { result ≡ number self }
        ensures bound { result < 10 }
    {
        match self {
            Port::In => 0,
            Port::RoutesIn => 1,
            Port::CertIn => 2,
            Port::EditsIn => 3,
            Port::RoutesOut => 4,
            Port::CertOut => 5,
            Port::DesignOut => 6,
            Port::GuideOut => 7,
            Port::MapOut => 8,
            Port::Report => 9,
        }
    }
}
