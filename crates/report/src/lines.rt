// The lines of a report, each from a place of the output on.
ghost use Rattle.std.specs.Prelude.{◌++◌};
ghost use Rattle.machine.specs.Answers.{verdict_of};
ghost use Rattle.text.specs.Puts.{PutsShort};
ghost use Rattle.report.specs.Text.{tags_text, cells_text, entries_text, chains_text, figures_text, counted_file, refused_file, number_line, number_lines, closing};
ghost use Rattle.report.specs.Most.{tags_most, cells_most, entries_most, chains_most, figures_most, counted_most, refused_file_most, number_line_most, number_lines_most, closing_most};

use crate::Month;
use listing::put_refusal;
use machine::Refusal;
use tally::{Tags, Tally};
use text::{put_byte, put_bytes, put_spaced};

// The count of each tag.
fn put_tags(output: &mut [u8], at: usize, tags: Tags) -> usize
    ensures { PutsShort tags_most output.old at (tags_text tags) result output.new }
{
    let structure_at = put_spaced(output, at, tags.var as usize);
    let list_at = put_spaced(output, structure_at, tags.structure as usize);
    let constant_at = put_spaced(output, list_at, tags.list as usize);
    put_spaced(output, constant_at, tags.constant as usize)
}

// Heap cells kept and dropped.
fn put_cells(output: &mut [u8], at: usize, figures: Tally) -> usize
    ensures { PutsShort cells_most output.old at (cells_text figures) result output.new }
{
    let kept_at = put_bytes(output, at, b" kept");
    let dropped_at = put_tags(output, kept_at, figures.kept);
    let counts_at = put_bytes(output, dropped_at, b" dropped");
    put_tags(output, counts_at, figures.dropped)
}

// Trail entries kept and dropped.
fn put_entries(output: &mut [u8], at: usize, figures: Tally) -> usize
    ensures { PutsShort entries_most output.old at (entries_text figures) result output.new }
{
    let kept_at = put_bytes(output, at, b" trail");
    let dropped_at = put_spaced(output, kept_at, figures.entries_kept as usize);
    put_spaced(output, dropped_at, figures.entries_dropped as usize)
}

// Choice points and the deepest frame chain, to the line's end.
fn put_chains(output: &mut [u8], at: usize, figures: Tally) -> usize
    ensures { PutsShort chains_most output.old at (chains_text figures) result output.new }
{
    let points_at = put_bytes(output, at, b" points");
    let deepest_at = put_spaced(output, points_at, figures.points as usize);
    let count_at = put_bytes(output, deepest_at, b" deepest");
    let end = put_spaced(output, count_at, figures.deepest as usize);
    put_byte(output, end, b'\n')
}

// All figures.
fn put_figures(output: &mut [u8], at: usize, figures: Tally) -> usize
    ensures { PutsShort figures_most output.old at (figures_text figures) result output.new }
{
    let entries_at = put_cells(output, at, figures);
    let chains_at = put_entries(output, entries_at, figures);
    put_chains(output, chains_at, figures)
}

// An accepted file: its number and its figures.
pub fn put_counted(output: &mut [u8], at: usize, number: u64, figures: Tally) -> usize
    ensures { PutsShort counted_most output.old at (counted_file number figures) result output.new }
{
    let number_at = put_bytes(output, at, b"freeze");
    let figures_at = put_spaced(output, number_at, number as usize);
    put_figures(output, figures_at, figures)
}

// A file whose image is refused: its number and the refusal.
pub fn put_refused(output: &mut [u8], at: usize, number: u64, refusal: Refusal) -> usize
    ensures { PutsShort refused_file_most output.old at (refused_file number (verdict_of refusal)) result output.new }
{
    let number_at = put_bytes(output, at, b"freeze");
    let space_at = put_spaced(output, number_at, number as usize);
    let refusal_at = put_byte(output, space_at, b' ');
    put_refusal(output, refusal_at, refusal)
}

// How many images were refused under a number, if any were.
fn put_number(output: &mut [u8], at: usize, number: usize, count: u64) -> usize
    ensures { PutsShort number_line_most output.old at (number_line number count) result output.new }
{
    if count == 0 {
        return at;
    }
    let number_at = put_bytes(output, at, b"refused");
    let count_at = put_spaced(output, number_at, number);
    let end = put_spaced(output, count_at, count as usize);
    put_byte(output, end, b'\n')
}

// The same for every number, rising.
fn put_numbers(output: &mut [u8], from: usize, month: Month) -> usize
    ensures { PutsShort number_lines_most output.old from (number_lines 0 month.refused) result output.new }
{
    let mut at = from;
    for (number, &count) in month.refused.iter().enumerate() {
        at = put_number(output, at, number, count);
    }
    at
}

// All files together.
pub fn put_closing(output: &mut [u8], at: usize, month: Month) -> usize
    ensures { PutsShort closing_most output.old at (closing month) result output.new }
{
    let accepted_at = put_bytes(output, at, b"all");
    let figures_at = put_spaced(output, accepted_at, month.accepted as usize);
    let refused_at = put_figures(output, figures_at, month.total);
    put_numbers(output, refused_at, month)
}
