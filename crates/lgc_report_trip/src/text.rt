// The text of reports.
ghost use Rattle.std.specs.Prelude.{◌≡◌, IfOk};
ghost use Rattle.lgc_report.specs.Reports.{plain_report};
ghost use Rattle.lgc_report.specs.ReportText.{report_text};
ghost use Rattle.lgc_report.specs.Writable.{IsWritableReport};
ghost use Rattle.lgc_report_trip.specs.ReportReadBack.{IsReadAsReport};

use crate::facts::see_report;
use lgc_report::{Report, write_report};
use lgc_values::Matrix;
use std::alloc::{AllocError, Global};

/// The text of a report of the logic that can be written.
pub fn text_of_report<const N: usize>(
    alloc: Global,
    m: &Matrix<N>,
    r: &Report<N>,
) -> Result<Vec<u8>, AllocError>
    requires { IsWritableReport m.now (plain_report r.now) }
    ensures text { IfOk result (λ text. text.items ≡ report_text m.now (plain_report r.now)) }
    // Where it has at most 33,554,432 bytes, the grammar of reports derives this report from it, and `read_report` answers it.
    ensures read_back { IfOk result (λ text. IsReadAsReport N m.now text.items r.now) }
{
    let _names = m.names();
    see_report(r);
    write_report(alloc, m, r)
}
