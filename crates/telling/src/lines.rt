// The lines of the text, each from a place of the output on.
ghost use Rattle.std.specs.Prelude.{◌+◌, ◌*◌, ◌++◌, ◌≤◌, ◌<◌, ◌≡◌, length, take};
ghost use Rattle.cell.specs.Tags.{number_of};
ghost use Rattle.machine.specs.Layout.{fixed};
ghost use Rattle.machine.specs.Lent.{seen};
ghost use Rattle.text.specs.Line.{spaced};
ghost use Rattle.text.specs.Puts.{Puts, PutsShort, number_most};
ghost use Rattle.telling.specs.Text.{argument_text, kind_text, site_text, root_line, tag_name, cell_line, cell_lines};
ghost use Rattle.telling.specs.Tells.{root_most, cell_most};
ghost use Rattle.telling.specs.Parts.{own_text, cells_from, Rooted, kind_most, site_most, Indexes};

use crate::owners::{Owner, owner_of};
use cell::Tag;
use listing::put_area;
use machine::{Area, FIXED, FRAME_FIXED, Place, View};
use text::{put_byte, put_bytes, put_number, put_spaced};

// A numbered word, and what it is of.
fn put_numbered(output: &mut [u8], at: usize, word: &[u8], number: usize, of: &[u8]) -> usize
    ensures { PutsShort (length word.now + number_most + length of.now) output.old at (word.now ++ (spaced number ++ of.now)) result output.new }
{
    let number_at = put_bytes(output, at, word);
    let of_at = put_spaced(output, number_at, number);
    put_bytes(output, of_at, of)
}

// A word of the control area as an argument.
fn put_argument(output: &mut [u8], at: usize, index: usize) -> usize
    requires { fixed ≤ index }
    ensures { PutsShort kind_most output.old at (argument_text index) result output.new }
{
    put_numbered(
        output,
        at,
        b"argument",
        index - FIXED + 1,
        b" of the control area",
    )
}

// A stack word as a cell of its owner: of a frame, or a saved argument of a choice point.
fn put_member(output: &mut [u8], at: usize, owner: Owner, i: usize) -> usize
    requires { cells_from owner ≤ i }
    ensures { PutsShort kind_most output.old at (own_text i owner) result output.new }
{
    match owner {
        Owner::Frame(e) => {
            let number = i - (e + FRAME_FIXED) + 1;
            let e_at = put_numbered(output, at, b"cell", number, b" of the frame at");
            put_spaced(output, e_at, e)
        }
        Owner::Point(b) => {
            let number = i - (b + FIXED) + 1;
            let b_at = put_numbered(
                output,
                at,
                b"saved argument",
                number,
                b" of the choice point at",
            );
            put_spaced(output, b_at, b)
        }
    }
}

// What a root is.
fn put_kind(output: &mut [u8], at: usize, root: Place, view: View<'_>, work: &mut [u32]) -> usize
    requires { Rooted (seen view) work.old root.area root.index }
    ensures puts_short { PutsShort kind_most output.old at (kind_text (seen view.entry) root.area root.index) result output.new }
    ensures work_unchanged { work.new ≡ work.old }
{
    match root.area {
        Area::Control => put_argument(output, at, root.index),
        Area::Stack => {
            let owner = owner_of(view, work, root.index);
            put_member(output, at, owner, root.index)
        }
        Area::Heap | Area::Trail => at,
    }
}

// Where a root stands.
fn put_site(output: &mut [u8], at: usize, root: Place) -> usize
    ensures { PutsShort site_most output.old at (site_text root.area root.index) result output.new }
{
    let area_at = put_byte(output, at, b':');
    let index_at = put_area(output, area_at, root.area);
    let end = put_spaced(output, index_at, root.index);
    put_byte(output, end, b'\n')
}

// The root's line.
pub fn put_root(
    output: &mut [u8],
    at: usize,
    root: Place,
    view: View<'_>,
    work: &mut [u32],
) -> usize
    requires { Rooted (seen view) work.old root.area root.index }
    ensures puts_short { PutsShort root_most output.old at (root_line (seen view.entry) root.area root.index) result output.new }
    ensures work_unchanged { work.new ≡ work.old }
{
    let kind_at = put_bytes(output, at, b"held by ");
    let site_at = put_kind(output, kind_at, root, view, work);
    put_site(output, site_at, root)
}

// A tag after a space.
#[tactic(auto, unfolding(crate::specs::Text::tag_name))]
fn put_tag(output: &mut [u8], at: usize, tag: Tag) -> usize
    ensures { Puts output.old at (tag_name (number_of tag)) result output.new }
{
    match tag {
        Tag::Var => put_bytes(output, at, b" VAR"),
        Tag::Struct => put_bytes(output, at, b" STRUCT"),
        Tag::List => put_bytes(output, at, b" LIST"),
        Tag::Const => put_bytes(output, at, b" CONST"),
    }
}

// A heap cell's line.
fn put_cell(output: &mut [u8], at: usize, heap: &[u32], x: usize) -> usize
    requires { x < length heap.now }
    ensures { Puts output.old at (cell_line heap.now x) result output.new }
{
    let word = heap[x];
    let tag_at = put_number(output, at, x);
    let value_at = put_tag(output, tag_at, Tag::of(word));
    let end = put_spaced(output, value_at, cell::value(word) as usize);
    put_byte(output, end, b'\n')
}

// A line for each cell of the chain.
pub fn put_chain(output: &mut [u8], from: usize, heap: &[u32], room: &[u32], count: usize) -> usize
    requires { Indexes heap.now room.now count }
    ensures { PutsShort (cell_most * length room.now) output.old from (cell_lines heap.now (take count room.now)) result output.new }
{
    let mut at = from;
    for x in &room[..count] {
        at = put_cell(output, at, heap, *x as usize);
    }
    at
}
