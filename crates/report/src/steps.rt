// What one file leads to: the report is closed, or the file's line is put and the month goes on.
ghost use Rattle.std.specs.Prelude.{◌≡◌, Some, None, ◌++◌, ◌+◌, ◌<◌, ◌≤◌};
ghost use Rattle.text.specs.Line.{ascii};
ghost use Rattle.tally.specs.Totals.{files_most, Fits};
ghost use Rattle.report.specs.Text.{counted_file, closing};
ghost use Rattle.report.specs.Most.{numbers};
ghost use Rattle.report.specs.First.{file_most};
ghost use Rattle.report.specs.Reports.{with_figures, with_refused};
ghost use Rattle.report.specs.Nexts.{Answers, Possible};
ghost use Rattle.report.specs.Parts.{Near, Stops, Refuses};

use crate::lines::{put_closing, put_counted, put_refused};
use crate::{GoesOn, Month, Step};
use freeze::FileRefusal;
use listing::put_file;
use machine::Refusal;
use tally::Tally;
use text::put_bytes;

impl Month {
    // One file more, whose image is refused under a number.
    #[tactic(auto, unfolding(crate::specs::Reports::with_refused))]
    fn with_refused(mut self, used: usize, number: u32) -> Month
        requires possible { Possible self }
        requires used_le_file_most { (used ≤ file_most) × (number < numbers) }
        ensures { result ≡ with_refused used number self }
    {
        self.files += 1;
        self.start += used as u64;
        self.refused[number as usize] += 1;
        self
    }

    // One file more, which is accepted.
    #[tactic(auto, unfolding(crate::specs::Reports::with_figures))]
    fn with_figures(mut self, used: usize, figures: Tally) -> Month
        requires possible { Possible self }
        requires used_le_file_most { used ≤ file_most }
        requires fits { Fits self.total figures }
        ensures { result ≡ with_figures used figures self }
    {
        self.files += 1;
        self.accepted += 1;
        self.start += used as u64;
        self.total = self.total.plus(figures);
        self
    }
}

// The input ends between files.
pub fn end(output: &mut [u8], at: usize, month: Month) -> Step
    ensures { Answers None (closing month ++ ascii "end\n") output.old at result output.new }
{
    let end_at = put_closing(output, at, month);
    Step {
        at: put_bytes(output, end_at, b"end\n"),
        next: None,
    }
}

// The input goes on in a way that no report goes on from.
pub fn stop(output: &mut [u8], at: usize, month: Month, refusal: FileRefusal) -> Step
    requires possible { Possible month }
    requires near { Near refusal }
    ensures { Stops month refusal output.old at result output.new }
{
    let fault = refusal.fault();
    let offset = month.start + fault.offset as u64;
    let fault_at = put_closing(output, at, month);
    Step {
        at: put_file(output, fault_at, fault.number as usize, offset as usize),
        next: None,
    }
}

// A file whose image is refused.
pub fn refuse(output: &mut [u8], at: usize, month: Month, used: usize, refusal: Refusal) -> Step
    requires possible { Possible month }
    requires used_le_file_most { used ≤ file_most }
    ensures { Refuses month used refusal output.old at result output.new }
{
    let next = GoesOn {
        used,
        month: month.with_refused(used, refusal.reason().number),
    };
    Step {
        at: put_refused(output, at, month.files + 1, refusal),
        next: Some(next),
    }
}

// A file whose image is accepted.
pub fn count(output: &mut [u8], at: usize, month: Month, used: usize, figures: Tally) -> Step
    requires possible { Possible month }
    requires used_le_file_most { used ≤ file_most }
    requires fits { Fits month.total figures }
    ensures { Answers (Some (record { used = used; month = with_figures used figures month })) (counted_file (month.files + 1) figures) output.old at result output.new }
{
    let next = GoesOn {
        used,
        month: month.with_figures(used, figures),
    };
    Step {
        at: put_counted(output, at, month.files + 1, figures),
        next: Some(next),
    }
}
