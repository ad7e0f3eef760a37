//! The diagnostics of the faults of demands.

ghost use Rattle.std.specs.Prelude.{◌≡◌, Some};
ghost use Rattle.std.specs.Rc.{rc_str_bytes};
ghost use Rattle.fast_check_finder_demands.specs.asked.Demands.{Text};
ghost use Rattle.fast_check_finder_ranges.specs.findings.Faults.{placed_with};
ghost use Rattle.fast_check_finder_ranges.specs.findings.Diagnostics.{fault_reported};
ghost use Rattle.fast_check_finder_ranges.specs.findings.Yields.{of_demand};

use crate::findings::demand_fault::DemandFault;
use fast_check_finder_demands::DemandFaultKind;
use fast_check_tables_diagnostics::{FastCheckDiagnostic, FastCheckDiagnosticRange};
use std::rc::RcStr;

/// The diagnostic of a fault.
#[tactic(auto, unfolding(crate::specs::findings::Faults::demand_fault))]
pub(crate) fn demand_diagnostic(fault: DemandFault, text_info: RcStr) -> FastCheckDiagnostic
    ensures { (t : Text) → fault_reported t result ≡ Some (of_demand (placed_with fault (rc_str_bytes text_info))) }
{
    let DemandFault {
        range,
        kind,
        name,
        referrer,
        specifier,
    } = fault;
    let range = FastCheckDiagnosticRange {
        specifier,
        range,
        text_info,
    };
    match kind {
        DemandFaultKind::PrivateMember => FastCheckDiagnostic::UnsupportedPrivateMemberReference {
            range,
            name,
            referrer,
        },
        DemandFaultKind::NotFound => FastCheckDiagnostic::NotFoundReference {
            range,
            name,
            referrer,
        },
        DemandFaultKind::TooComplex => FastCheckDiagnostic::UnsupportedComplexReference {
            range,
            name,
            referrer,
        },
    }
}
