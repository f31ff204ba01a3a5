// Bundles: a run of frames, each behind its length in 16 bits. The bundle reader keeps the slice and
// its place, and gives the next frame as a part of the slice, or end, or broken. Each public
// function accepts any input.
#![tactic(auto)]

ghost use Rattle.std.specs.Prelude.{◌≡◌, ◌+◌, ◌≤◌, length, take, drop};
ghost use Rattle.bundle.specs.Bundle.{step_at, Part, FramePart, Gives, answer_of};

use numbers::number_at;

// What stands at a place: a frame, from start on, of so many bytes, and the place behind it; the end;
// or broken. With end and broken the place stays. (Three cases, which the definitions of a listing name
// too: a result of an option would be no plainer.)
#[derive(Debug, Clone, Copy, PartialEq, Eq)]
pub enum Step {
    Frame {
        start: usize,
        length: usize,
        next: usize,
    },
    End,
    Broken,
}

// The step at a place of a bundle.
#[tactic(auto, unfolding(crate::specs::Bundle::step_at))]
pub fn step_at(bundle: &[u8], place: usize) -> Step
    ensures { result ≡ step_at bundle.now place }
{
    let size = bundle.len();
    if size < place {
        return Step::Broken;
    }
    if size == place {
        return Step::End;
    }
    if size - place < 2 {
        return Step::Broken;
    }
    let length = number_at(bundle, place, 2) as usize;
    let start = place + 2;
    if size - start < length {
        return Step::Broken;
    }
    Step::Frame {
        start,
        length,
        next: start + length,
    }
}

// The kinds of a step, by the numbers that C has for them.
#[derive(Clone, Copy)]
enum Kind {
    Frame = 0,
    End = 1,
    Broken = 2,
}

// A step as C has it, with the number of its kind.
#[repr(C)]
#[derive(Clone, Copy)]
pub struct BundleStep {
    pub start: usize,
    pub length: usize,
    pub next: usize,
    pub kind: u8,
}

// A step that has no frame, and stays at its place.
fn staying(kind: u8, place: usize) -> BundleStep
    ensures { result ≡ record { start = 0; length = 0; next = place; kind = kind } }
{
    BundleStep {
        start: 0,
        length: 0,
        next: place,
        kind,
    }
}

// The step at a place of a bundle, for C, to which `bundle_c` exports it. With end and broken start and
// length are 0, and next is the place.
pub fn panel_bundle_step(bundle: &[u8], place: usize) -> BundleStep
    ensures { result ≡ answer_of (step_at bundle.now place) place }
{
    match step_at(bundle, place) {
        Step::Frame {
            start,
            length,
            next,
        } => BundleStep {
            start,
            length,
            next,
            kind: Kind::Frame as u8,
        },
        Step::End => staying(Kind::End as u8, place),
        Step::Broken => staying(Kind::Broken as u8, place),
    }
}

// So many bytes of a bundle, from a start on.
fn cut(bundle: &[u8], start: usize, size: usize) -> &[u8]
    requires { start + size ≤ length bundle.now }
    ensures { Part bundle.entry start (take size (drop start bundle.now)) result }
{
    &bundle[start..start + size]
}

// The reader: a bundle and a place in it.
#[derive(Clone, Copy)]
pub struct Reader<'a> {
    pub bundle: &'a [u8],
    pub place: usize,
}

// A bundle that is cut short, or a place past its end.
#[derive(Debug, Clone, Copy, PartialEq, Eq)]
pub struct BrokenBundle;

impl<'a> Reader<'a> {
    // A reader at the start of a bundle.
    pub fn new(bundle: &'a [u8]) -> Reader<'a>
        ensures { (result.bundle ≡ bundle.entry) × (result.place ≡ 0) }
    {
        Reader { bundle, place: 0 }
    }

    // The next frame, as the part of the bundle that it occupies, or none at the end. The reader goes on
    // behind a frame; at the end and where the bundle is broken it stays.
    pub fn next(&mut self) -> Result<Option<&'a [u8]>, BrokenBundle>
        ensures { Gives self.old result self.new }
    {
        match step_at(self.bundle, self.place) {
            Step::Frame {
                start,
                length,
                next,
            } => {
                self.place = next;
                Ok(Some(cut(self.bundle, start, length)))
            }
            Step::End => Ok(None),
            Step::Broken => Err(BrokenBundle),
        }
    }
}

// The frame at a place, as a reader there gives it. With end and broken it is the empty part at the
// bundle's start, and no None: callers are promised a part, which a frame check then refuses with 1.
pub fn part_at(bundle: &[u8], place: usize) -> &[u8]
    ensures { FramePart bundle.entry place result }
{
    match (Reader { bundle, place }).next() {
        Ok(Some(part)) => part,
        _ => cut(bundle, 0, 0),
    }
}
