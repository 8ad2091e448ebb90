// Walks the chains of frames and choice points, from the newest, and notes the role of each stack word. A frame met before is noted in
// the view it is met in and followed no further: its parents were noted when it was first met, and none of them was at fault.
#![tactic(auto)]

ghost use Rattle.std.specs.Bool.{OnTrue};
ghost use Rattle.std.specs.Prelude.{◌≡◌, ◌+◌, ◌≤◌, length, get_or};
ghost use Rattle.machine.specs.Layout.{Image, fixed, none, size_of, frame_fixed};
ghost use Rattle.machine.specs.Chains.{frame, point, sound};
ghost use Rattle.machine.specs.Lent.{seen};
ghost use Rattle.machine.specs.Lowest.{Lowest};
ghost use Rattle.machine.specs.Roles.{cell, code_of};
ghost use Rattle.chains.specs.Notes.{several_at, Blank, Walks};
ghost use Rattle.chains.specs.Noting.{Joins, ShowsSize, Gains, FrameNoted, PointNoted, first_point, Walked};

use machine::{
    ARGUMENTS_MOST, B, CELL, E, FIXED, FRAME_FIXED, H, L, LINK, LINK_FIELD, N, NONE, OWN,
    SIZE_FIELD, T, View,
};

// The notes of words with several roles.
const SEVERAL: u32 = 11;

const SEVERAL_WITH_SIZE: u32 = 12;

// The note of a word that gains a role.
#[tactic(auto, using(crate::proofs::Shows::joining))]
fn joined(note: u32, role: u32) -> u32
    ensures { Joins note role result }
{
    match (note, role) {
        (0, _) => role,
        _ if note == role => note,
        (SIZE_FIELD | SEVERAL_WITH_SIZE, _) | (_, SIZE_FIELD) => SEVERAL_WITH_SIZE,
        _ => SEVERAL,
    }
}

// The note of a word that is a cell, too. Most have no role yet or that of a cell, and one test finds both.
#[tactic(auto, using(crate::proofs::Shows::joining))]
fn joined_cell(note: u32) -> u32
    ensures { Joins note (code_of cell) result }
{
    if note <= CELL {
        CELL
    } else {
        joined(note, CELL)
    }
}

// Whether a note says that the word is a frame's CL.
fn shows_size(note: u32) -> bool
    ensures { ShowsSize note result }
{
    matches!(note, SIZE_FIELD | SEVERAL_WITH_SIZE)
}

// Notes the cells from a up to, not including, z.
fn note_cells(notes: &mut [u32], a: usize, z: usize)
    requires { (a ≤ z) × (z ≤ length notes.old) }
    ensures { Gains (λ j. code_of cell) a z notes.old notes.new }
{
    for note in &mut notes[a..z] {
        *note = joined_cell(*note);
    }
}

// Notes the frame at e with k cells.
fn note_frame(notes: &mut [u32], e: usize, k: usize)
    requires { e + frame_fixed + k ≤ length notes.old }
    ensures { FrameNoted e k notes.old notes.new }
{
    notes[e] = joined(notes[e], SIZE_FIELD);
    notes[e + LINK] = joined(notes[e + LINK], LINK_FIELD);
    note_cells(notes, e + FRAME_FIXED, e + FRAME_FIXED + k);
}

// Notes the choice point at b with n saved arguments.
fn note_point(notes: &mut [u32], b: usize, n: usize)
    requires { b + fixed + n ≤ length notes.old }
    ensures { PointNoted b n notes.old notes.new }
{
    for f in 0..FIXED {
        notes[b + f] = joined(notes[b + f], OWN + f as u32);
    }
    note_cells(notes, b + FIXED, b + FIXED + n);
}

// Notes the frames from e, the first of them of the size that l says, or answers the index of the first that is broken.
fn walk_frames(view: View<'_>, notes: &mut [u32], e: u32, l: u32, limit: usize) -> Result<(), u32>
    requires { (limit ≤ length view.stack.now) × (length view.stack.now ≤ length notes.old) }
    ensures { Walked (seen view.entry) (frame e (size_of l) limit) notes.old result notes.new }
{
    let stack = view.stack;
    let mut next = e;
    let mut size = l;
    let mut end = limit;
    while next != NONE {
        let at = next as usize;
        let k = (size % 256) as usize;
        if end < at + FRAME_FIXED + k {
            return Err(next);
        }
        let met = shows_size(notes[at]);
        note_frame(notes, at, k);
        if met {
            return Ok(());
        }
        size = stack[at];
        next = stack[at + LINK];
        end = at;
    }
    Ok(())
}

// Whether the choice point at b ends in time, and its T and H are at most t and h.
#[tactic(auto, unfolding(machine::specs::Chains::sound, machine::specs::Layout::field))]
fn point_sound(view: View<'_>, b: usize, limit: usize, t: u32, h: u32) -> bool
    requires { (b ≤ none) × (limit ≤ length view.stack.now) }
    ensures tested { result ≡ sound (seen view.entry) (point b limit t h) }
    ensures inside { OnTrue result (b + fixed + get_or view.entry.stack.now (b + N) 0 ≤ limit) }
{
    let stack = view.stack;
    b + FIXED <= limit
        && stack[b + N] as usize <= ARGUMENTS_MOST
        && b + FIXED + stack[b + N] as usize <= limit
        && stack[b + T] <= t
        && stack[b + H] <= h
}

// Notes the choice points from B, each with its frames after it, or answers the index of the first that is broken.
fn walk_points(view: View<'_>, notes: &mut [u32]) -> Result<(), u32>
    requires { (fixed ≤ length view.control.now) × (length view.stack.now ≤ length notes.old) }
    ensures { Walked (seen view.entry) (first_point (seen view.entry)) notes.old result notes.new }
{
    let View { control, stack, .. } = view;
    let mut next = control[B];
    let mut end = stack.len();
    let mut most_t = control[T];
    let mut most_h = control[H];
    while next != NONE {
        let at = next as usize;
        if !point_sound(view, at, end, most_t, most_h) {
            return Err(next);
        }
        note_point(notes, at, stack[at + N] as usize);
        walk_frames(view, notes, stack[at + E], stack[at + L], at)?;
        next = stack[at + B];
        most_t = stack[at + T];
        most_h = stack[at + H];
        end = at;
    }
    Ok(())
}

// Notes every role in the work words from `notes` on, which are blank, or answers the index of the first frame or choice point that breaks
// a chain, as its pointer holds it.
pub fn walk(view: View<'_>, work: &mut [u32], notes: usize) -> Result<(), u32>
    requires { Blank view.control.now view.stack.now work.old notes }
    ensures { (X : Image) → X.control ≡ view.entry.control.now → X.stack ≡ view.entry.stack.now → Walks X work.old notes result work.new }
{
    let View { control, stack, .. } = view;
    let noted = &mut work[notes..];
    walk_frames(view, noted, control[E], control[L], stack.len())?;
    walk_points(view, noted)
}

// The lowest of `count` words whose note is of several roles.
#[tactic(auto, unfolding(crate::specs::Notes::several_at))]
pub fn apart(work: &[u32], notes: usize, count: usize) -> Option<usize>
    requires { notes + count ≤ length work.now }
    ensures { Lowest (several_at work.now notes) count result }
{
    work[notes..][..count]
        .iter()
        .position(|note| SEVERAL <= *note)
}
