ghost use Rattle.std.specs.Prelude.{◌≡◌, ◌≤◌, ◌++◌, length, drop};
ghost use Rattle.search.specs.Calls.{answer_or, left_or};
ghost use Rattle.page.specs.Texts.{report_text};
ghost use Rattle.page.specs.Reports.{page_of};
ghost use Rattle.page.specs.Pages.{short_fault};

use crate::report::Report;
use search::fault::PageFault;

// Writes a report to the front of the buffer and answers its length, unless the buffer is too short.
pub(crate) fn write(report: &Report, buffer: &mut [u8]) -> Result<usize, PageFault>
    ensures is { result ≡ answer_or (length (report_text (page_of report.now)))
        (short_fault (length (report_text (page_of report.now))) (length buffer.old)) }
    ensures buffer { buffer.new
        ≡ left_or (report_text (page_of report.now)
        ++ drop (length (report_text (page_of report.now))) buffer.old) buffer.old
        (short_fault (length (report_text (page_of report.now))) (length buffer.old)) }
    ensures room { length (report_text (page_of report.now)) ≤ 4400 }
{
    report.write(buffer).map_err(|_| PageFault::Short)
}
