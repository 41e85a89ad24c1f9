// The report of a run in one line.
ghost use Rattle.std.specs.Prelude.{◌≡◌, ◌++◌};
ghost use Rattle.pages.specs.Page.{written, cut};
ghost use Rattle.printing.specs.Printed.{stop_text, report_line};

use pages::Page;
use records::Stop;
use trace::Report;

// END, SPENT or the number of a refusal.
#[tactic(auto, unfolding(crate::specs::Printed::stop_text))]
fn put_stop(page: Page, stop: Stop) -> Page
    ensures { written result ≡ cut (written page ++ stop_text stop) }
{
    match stop {
        Stop::End => page.put_text(b"END"),
        Stop::Spent => page.put_text(b"SPENT"),
        Stop::Refused(cause) => page.put_decimal(u16::from(cause).into()),
    }
}

// The line of a report. Put by hand: what `write!` writes is promised only where it succeeds, and nothing promises that it does on a page.
#[tactic(auto, using(pages::proofs::Pages::cut_two), unfolding(crate::specs::Printed::report_line))]
pub fn put_report(page: Page, report: Report) -> Page
    ensures { written result ≡ cut (written page ++ report_line report) }
{
    put_stop(page.put_text(b"STOP "), report.stop)
        .put_text(b" NEXT ")
        .put_decimal(report.next as u64)
        .put_text(b" TICKS ")
        .put_decimal(report.ticks)
        .put_text(b" RECORDS ")
        .put_decimal(report.records as u64)
        .put_text(b" REFUSED ")
        .put_decimal(report.refused as u64)
        .put(b'\n')
}
