// A tally by value: each method gives the next tally back.
ghost use Rattle.std.specs.Prelude.{◌≡◌, ◌+◌, ◌-◌, ◌<◌, ◌≤◌};
ghost use Rattle.tally.specs.Figures.{Tag, of_tag, tags_by};
ghost use Rattle.tally.specs.Totals.{empty, hit, with_read, with_kept, plus, limit, Room, Fits};
ghost use Rattle.tally.specs.Parts.{with_trail, with_chain, with_point, RoomFor};

use crate::{Tags, Tally};
use machine::Counts;

impl Tags {
    // One under a word's tag.
    fn one(word: u32) -> Tags
        ensures { result ≡ tags_by (λ tag. hit word tag) }
    {
        let tag = cell::Tag::of(word);
        Tags {
            var: u64::from(tag == cell::Tag::Var),
            structure: u64::from(tag == cell::Tag::Struct),
            list: u64::from(tag == cell::Tag::List),
            constant: u64::from(tag == cell::Tag::Const),
        }
    }

    // The counts of two taken together, tag by tag.
    fn each<F: Fn(u64, u64) -> u64>(self, other: Tags, f: F) -> Tags
        requires { (tag : Tag) → F.pre f (of_tag tag self) (of_tag tag other) }
        ensures { (tag : Tag) → F.post f (of_tag tag self) (of_tag tag other) (of_tag tag result) }
    {
        Tags {
            var: f(self.var, other.var),
            structure: f(self.structure, other.structure),
            list: f(self.list, other.list),
            constant: f(self.constant, other.constant),
        }
    }

    // One more under a word's tag.
    fn more(self, word: u32) -> Tags
        requires { Room self }
        ensures { result ≡ tags_by (λ tag. of_tag tag self + hit word tag) }
    {
        self.plus(Tags::one(word))
    }

    // One fewer under a word's tag.
    fn fewer(self, word: u32) -> Tags
        requires { (tag : Tag) → hit word tag ≤ of_tag tag self }
        ensures { result ≡ tags_by (λ tag. of_tag tag self - hit word tag) }
    {
        self.each(Tags::one(word), |a, b| a - b)
    }

    // The counts of two added.
    fn plus(self, other: Tags) -> Tags
        requires { RoomFor self other }
        ensures { result ≡ tags_by (λ tag. of_tag tag self + of_tag tag other) }
    {
        self.each(other, |a, b| a + b)
    }
}

impl Tally {
    pub fn empty() -> Tally
        ensures { result ≡ empty }
    {
        Tally::default()
    }

    // Takes one cell as it is read. It counts as dropped until it is kept.
    pub fn read(mut self, word: u32) -> Tally
        requires { Room self.dropped }
        ensures { result ≡ with_read self word }
    {
        self.dropped = self.dropped.more(word);
        self
    }

    // Takes one cell that is kept, which was counted as dropped.
    pub fn keep(mut self, word: u32) -> Tally
        requires room { Room self.kept }
        requires tag_bound { (tag : Tag) → hit word tag ≤ of_tag tag self.dropped }
        ensures { result ≡ with_kept self word }
    {
        self.kept = self.kept.more(word);
        self.dropped = self.dropped.fewer(word);
        self
    }

    // Takes the counts of a collection's trail entries.
    pub fn trail(mut self, entries: Counts) -> Tally
        ensures { result ≡ with_trail self entries }
    {
        self.entries_kept = entries.kept as u64;
        self.entries_dropped = entries.dropped as u64;
        self
    }

    // Takes one chain of so many frames.
    pub fn chain(mut self, frames: u64) -> Tally
        ensures { result ≡ with_chain self frames }
    {
        self.deepest = self.deepest.max(frames);
        self
    }

    // Takes one choice point, whose chain has so many frames.
    pub fn point(mut self, frames: u64) -> Tally
        requires { self.points + 1 < limit }
        ensures { result ≡ with_point self frames }
    {
        self.points += 1;
        self.deepest = self.deepest.max(frames);
        self
    }

    // Adds the counted figures of two, and takes the larger of the deepest chains.
    pub fn plus(self, other: Tally) -> Tally
        requires { Fits self other }
        ensures { result ≡ plus self other }
    {
        Tally {
            kept: self.kept.plus(other.kept),
            dropped: self.dropped.plus(other.dropped),
            entries_kept: self.entries_kept + other.entries_kept,
            entries_dropped: self.entries_dropped + other.entries_dropped,
            points: self.points + other.points,
            deepest: self.deepest.max(other.deepest),
        }
    }
}
