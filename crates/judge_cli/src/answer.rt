//! What is said of routes that are judged.

ghost use Rattle.std.specs.Prelude.{◌≡◌};
ghost use Rattle.judge_cli.specs.AnswerLines.{is_objection};

use crate::routes_report::RoutesReport;
use route_judge::Reason;
use tree_set::{Budget, Fraction};

/// What a run says of routes, alone or with a certificate.
#[derive(Clone, Copy, Debug, Drop, PartialEq, Eq)]
pub enum Answer {
    /// What is measured of routes that are accepted.
    Measured(RoutesReport),
    /// What is measured of routes that are accepted with a certificate, with its budget, and the bound that it states.
    Yes {
        report: RoutesReport,
        bound: Option<Fraction>,
        budget: Option<Budget>,
    },
    /// Why they are not.
    No(Reason),
}

impl Answer {
    /// Whether it is a reason against what was judged.
    pub fn is_objection(self) -> bool
        ensures { result ≡ is_objection self }
    {
        matches!(self, Answer::No(_))
    }
}
