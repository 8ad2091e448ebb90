// The lines of a listing, each from a place of the output on.
ghost use Rattle.std.specs.Prelude.{◌≤◌, ◌++◌, ◌+◌, ◌*◌, length, take};
ghost use Rattle.machine.specs.Layout.{fixed};
ghost use Rattle.machine.specs.Refusals.{nowhere};
ghost use Rattle.machine.specs.Answers.{answer_of, place_in, verdict_of};
ghost use Rattle.machine.specs.Lent.{seen};
ghost use Rattle.freeze.specs.Verdicts.{verdict_of as file_verdict_of};
ghost use Rattle.text.specs.Line.{ascii, line};
ghost use Rattle.text.specs.Puts.{Puts, PutsShort};
ghost use Rattle.listing.specs.Text.{kept_line, area_lines, collected_text, name_of, refused_text, file_text};
ghost use Rattle.listing.specs.Lists.{line_most, areas_most, text_most, word_most};
ghost use Rattle.listing.specs.Lines.{verdict_text, file_verdict_text};

use freeze::FileRefusal;
use machine::{Area, Collected, FIXED, H, N, Place, Refusal, T, View};
use text::{put_byte, put_bytes, put_line, put_spaced};

// Cells kept and dropped, entries kept and dropped.
pub fn put_kept(output: &mut [u8], at: usize, done: Collected) -> usize
    ensures { PutsShort line_most output.old at (kept_line (answer_of (Ok done))) result output.new }
{
    let kept = put_bytes(output, at, b"kept");
    let dropped = put_spaced(output, kept, done.cells.kept);
    let trail = put_spaced(output, dropped, done.cells.dropped);
    let entries_kept = put_bytes(output, trail, b" trail");
    let entries_dropped = put_spaced(output, entries_kept, done.entries.kept);
    let end = put_spaced(output, entries_dropped, done.entries.dropped);
    put_byte(output, end, b'\n')
}

// A line of an area, the word and the first words, as many as counted.
fn put_words(output: &mut [u8], at: usize, word: &[u8], words: &[u32], count: usize) -> usize
    ensures { PutsShort (length word.now + word_most * length words.now + 1) output.old at (line word.now (take count words.now)) result output.new }
{
    put_line(output, at, word, words, count)
}

// The words of each area that the registers count, and the whole stack.
pub fn put_areas(output: &mut [u8], at: usize, view: View<'_>) -> usize
    requires { fixed ≤ length view.control.now }
    ensures { PutsShort (areas_most (seen view.entry)) output.old at (area_lines (seen view.entry)) result output.new }
{
    let View {
        control,
        stack,
        heap,
        trail,
    } = view;
    let count = FIXED + control[N] as usize;
    let top = control[H] as usize;
    let entries = control[T] as usize;
    let stack_at = put_words(output, at, b"control", control, count);
    let heap_at = put_words(output, stack_at, b"stack", stack, stack.len());
    let trail_at = put_words(output, heap_at, b"heap", heap, top);
    put_words(output, trail_at, b"trail", trail, entries)
}

// A refusal that names no place.
pub fn put_number_alone(output: &mut [u8], at: usize, number: usize) -> usize
    ensures { PutsShort line_most output.old at (refused_text number nowhere) result output.new }
{
    let number_at = put_bytes(output, at, b"refused");
    let end = put_spaced(output, number_at, number);
    put_byte(output, end, b'\n')
}

// An area's name after a space.
pub fn put_area(output: &mut [u8], at: usize, area: Area) -> usize
    ensures { Puts output.old at (ascii " " ++ name_of area) result output.new }
{
    match area {
        Area::Heap => put_bytes(output, at, b" heap"),
        Area::Stack => put_bytes(output, at, b" stack"),
        Area::Control => put_bytes(output, at, b" control"),
        Area::Trail => put_bytes(output, at, b" trail"),
    }
}

// A refusal that names a place.
fn put_placed(output: &mut [u8], at: usize, number: usize, place: Place) -> usize
    ensures { PutsShort line_most output.old at (refused_text number (place_in place)) result output.new }
{
    let number_at = put_bytes(output, at, b"refused");
    let area_at = put_spaced(output, number_at, number);
    let index_at = put_area(output, area_at, place.area);
    let end = put_spaced(output, index_at, place.index);
    put_byte(output, end, b'\n')
}

// A refused image: the number, and the place of those that have one.
pub fn put_refusal(output: &mut [u8], at: usize, refusal: Refusal) -> usize
    ensures { PutsShort line_most output.old at (verdict_text (verdict_of refusal)) result output.new }
{
    let reason = refusal.reason();
    let number = reason.number as usize;
    match reason.place {
        None => put_number_alone(output, at, number),
        Some(place) => put_placed(output, at, number, place),
    }
}

// A number and an offset.
pub fn put_file(output: &mut [u8], at: usize, number: usize, offset: usize) -> usize
    ensures { PutsShort line_most output.old at (file_text number offset) result output.new }
{
    let number_at = put_bytes(output, at, b"file");
    let offset_at = put_spaced(output, number_at, number);
    let end = put_spaced(output, offset_at, offset);
    put_byte(output, end, b'\n')
}

// A bad file: the number and the offset.
pub fn put_bad_file(output: &mut [u8], at: usize, refusal: FileRefusal) -> usize
    ensures { PutsShort line_most output.old at (file_verdict_text (file_verdict_of refusal)) result output.new }
{
    let fault = refusal.fault();
    put_file(output, at, fault.number as usize, fault.offset)
}

// The whole text of a collection.
pub fn put_collected(output: &mut [u8], done: Collected, view: View<'_>) -> usize
    requires { fixed ≤ length view.control.now }
    ensures { PutsShort (text_most (seen view.entry)) output.old 0 (collected_text (answer_of (Ok done)) (seen view.entry)) result output.new }
{
    let areas_at = put_kept(output, 0, done);
    let end_at = put_areas(output, areas_at, view);
    put_bytes(output, end_at, b"end\n")
}
