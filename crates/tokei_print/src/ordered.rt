//! Reports in the order in which they are listed.
ghost use Rattle.std.specs.Prelude.{◌≡◌, IfOk, map};
ghost use Rattle.tokei_print.specs.ListedReports.{reports_in};
ghost use Rattle.tokei_print.specs.NameOrder.{by_name, in_order};
ghost use Rattle.tokei_stats.specs.Reports.{report_of};

use std::alloc::{AllocError, Global};
use tokei_stats::Report;

/// The reports in their order.
fn as_they_stand(alloc: Global, reports: &[Report]) -> Result<Vec<&Report>, AllocError>
    ensures { IfOk result (λ v. reports_in v.items ≡ map report_of reports.entry.now) }
{
    let mut ordered = Vec::with_capacity(alloc, reports.len())?;
    for report in reports {
        ordered.push(report)?;
    }
    Ok(ordered)
}

/// The reports by name; those of one name stay in their order.
fn by_name(alloc: Global, reports: &[Report]) -> Result<Vec<&Report>, AllocError>
    ensures { IfOk result (λ v. reports_in v.items ≡ by_name (map report_of reports.entry.now)) }
{
    let mut ordered = as_they_stand(alloc, reports)?;
    ordered.sort_by(|first, second| first.name.cmp(&second.name))?;
    Ok(ordered)
}

/// The reports in the order in which they are listed: by name, where they aren't sorted otherwise.
pub fn in_order(alloc: Global, reports: &[Report], sorted: bool) -> Result<Vec<&Report>, AllocError>
    ensures { IfOk result (λ v. reports_in v.items
        ≡ in_order sorted (map report_of reports.entry.now)) }
{
    if sorted {
        as_they_stand(alloc, reports)
    } else {
        by_name(alloc, reports)
    }
}
