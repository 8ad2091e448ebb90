// The chains of frames and the choice points, counted. What is known of a frame is noted in the stack's work words, so that a chain that
// many choice points share is walked once.
ghost use Rattle.std.specs.Prelude.{◌≡◌, ◌≤◌, length};
ghost use Rattle.machine.specs.Layout.{fixed, field};
ghost use Rattle.machine.specs.Layout as layout;
ghost use Rattle.tally.specs.Parts.{Chain, Chained, Pointed, Memo, Memo-prop, Notes, Chains, CountsPoints, CountsChains};

use crate::Tally;
use machine::{B, E, LINK, NONE};

// A stack's frames, with what is noted of them.
#[derive(Drop)]
struct Frames<'a> {
    stack: &'a [u32],
    notes: &'a mut [u32],
    ghost memo: { Memo stack.now notes.now } by { Memo-prop stack.now notes.now },
}

impl Frames<'_> {
    // How many frames the chain from a frame has: those that have no note yet, and then what the first note says.
    fn chain_length(&self, from: u32) -> u32
        requires { Chained self.now.stack.now from }
        ensures { Chain self.now.stack.now from result }
    {
        let mut e = from;
        let mut n = 0;
        while e != NONE {
            let at = e as usize;
            let known = self.notes[at];
            if known != 0 {
                return n + known;
            }
            n += 1;
            e = self.stack[at + LINK];
        }
        n
    }

    // Notes the length of the chain from a frame and from each of its parents, up to the first that has a note.
    fn note_chain(&mut self, from: u32, frames: u32)
        requires { Chain self.old.stack.now from frames }
        ensures same_stack { self.new.stack ≡ self.old.stack }
        ensures same_reference { self.new.notes.ghost_name ≡ self.old.notes.ghost_name }
        ensures noted { Notes self.old.stack.now self.old.notes.now self.new.notes.now }
    {
        let mut e = from;
        let mut n = frames;
        while e != NONE {
            let at = e as usize;
            if self.notes[at] != 0 {
                return;
            }
            self.notes[at] = n;
            n -= 1;
            e = self.stack[at + LINK];
        }
    }

    // The length of the chain from a frame, which is noted.
    fn depth(&mut self, e: u32) -> u32
        requires { Chained self.old.stack.now e }
        ensures same_stack { self.new.stack ≡ self.old.stack }
        ensures same_reference { self.new.notes.ghost_name ≡ self.old.notes.ghost_name }
        ensures chains { Chains self.old.stack.now e self.old.notes.now result self.new.notes.now }
    {
        let frames = self.chain_length(e);
        self.note_chain(e, frames);
        frames
    }

    // The choice points from b, each with its chain.
    fn count_points(&mut self, tally: Tally, b: u32) -> Tally
        requires pointed { Pointed self.old.stack.now b }
        requires points_value { tally.points ≡ 0 }
        ensures same_stack { self.new.stack ≡ self.old.stack }
        ensures same_reference { self.new.notes.ghost_name ≡ self.old.notes.ghost_name }
        ensures counted { CountsPoints self.old.stack.now b tally self.old.notes.now result self.new.notes.now }
    {
        let mut next = b;
        let mut counted = tally;
        while next != NONE {
            let at = next as usize;
            let e = self.stack[at + E];
            let frames = self.depth(e);
            counted = counted.point(frames as u64);
            next = self.stack[at + B];
        }
        counted
    }
}

// The control area's chain, and the choice points.
pub fn count_chains(tally: Tally, control: &[u32], stack: &[u32], notes: &mut [u32]) -> Tally
    requires fixed_in_bounds { fixed ≤ length control.now }
    requires chained { Chained stack.now (field control.now 0 layout.E) }
    requires pointed { Pointed stack.now (field control.now 0 layout.B) }
    requires memo { Memo stack.now notes.old }
    requires points_value { tally.points ≡ 0 }
    ensures { CountsChains control.now stack.now tally notes.old result notes.new }
{
    let mut frames = Frames { stack, notes };
    let own = frames.depth(control[E]);
    frames.count_points(tally.chain(own as u64), control[B])
}
