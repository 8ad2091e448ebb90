// The functions that an engine written in C links, by way of the static library `engine_c`. Each calls one entry of the library and gives
// its answer as a struct of numbers. include/bikorashen.h declares these structs and functions once more, in the same order.
#![tactic(auto)]

mod calls;
mod files;
mod parts;
mod reasons;
mod why;

pub use calls::{bik_collect, bik_step_back};
pub use files::{bik_freeze, bik_record_at, bik_thaw};
pub use parts::bik_look_up;
pub use why::bik_why_held;

// What a collection answers.
#[repr(C)]
#[derive(Clone, Copy, Default)]
pub struct BikCollected {
    pub refusal: u32,
    pub area: u32,
    pub index: u64,
    pub cells_kept: u64,
    pub cells_dropped: u64,
    pub entries_kept: u64,
    pub entries_dropped: u64,
}

// What a step back answers.
#[repr(C)]
#[derive(Clone, Copy, Default)]
pub struct BikStepped {
    pub refusal: u32,
    pub area: u32,
    pub index: u64,
    pub undone: u64,
}

// Why a heap cell is held.
#[repr(C)]
#[derive(Clone, Copy, Default)]
pub struct BikHeld {
    pub refusal: u32,
    pub area: u32,
    pub index: u64,
    pub held: u32,
    pub root_area: u32,
    pub root_index: u64,
    pub length: u64,
}

// The part of an area that an address names.
#[repr(C)]
#[derive(Clone, Copy, Default)]
pub struct BikPart {
    pub area: u32,
    pub index: u64,
    pub length: u64,
}

// What the reader of a freeze file answers.
#[repr(C)]
#[derive(Clone, Copy, Default)]
pub struct BikThawed {
    pub refusal: u32,
    pub offset: u64,
    pub control: u64,
    pub stack: u64,
    pub heap: u64,
    pub trail: u64,
}

// What the writer of a freeze file answers.
#[repr(C)]
#[derive(Clone, Copy, Default)]
pub struct BikFrozen {
    pub refusal: u32,
    pub bytes: u64,
}

// One record of a freeze file.
#[repr(C)]
#[derive(Clone, Copy, Default)]
pub struct BikRecord {
    pub refusal: u32,
    pub offset: u64,
    pub kind: u32,
    pub body: u64,
    pub next: u64,
}
