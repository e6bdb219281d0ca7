//! Straight lines of a picture.
ghost use Rattle.std.specs.Prelude.{◌≡◌, ◌++◌, OnOk, None};
ghost use Rattle.std.specs.List.{flat_map};
ghost use Rattle.lift_picture.specs.Segments.{is_same, is_repeated as is_repeated_lem, segment_text, thinned};

use lift_text::put_words;
use std::alloc::AllocError;

/// A straight line from one place to another.
#[derive(Clone, Copy)]
pub(crate) struct Segment {
    pub x1: u64,
    pub y1: u64,
    pub x2: u64,
    pub y2: u64,
}

impl Segment {
    /// Whether it is drawn just as the other.
    fn is_same(&self, other: &Segment) -> bool
        ensures { result ≡ is_same self.now other.now }
    {
        self.x1 == other.x1 && self.y1 == other.y1 && self.x2 == other.x2 && self.y2 == other.y2
    }
}

/// Whether the segment is drawn just as the last one, if there is one.
fn is_repeated(last: Option<Segment>, segment: &Segment) -> bool
    ensures { result ≡ is_repeated_lem last segment.now }
{
    match last {
        Some(before) => before.is_same(segment),
        None => false,
    }
}

#[tactic(auto, unfolding(crate::specs::Segments::segment_text))]
fn put_segment(out: &mut Vec<u8>, segment: &Segment) -> Result<(), AllocError>
    ensures { OnOk result (out.new.items ≡ out.old.items ++ segment_text segment.now) }
{
    put_words(out, b"M", &[segment.x1, segment.y1])?;
    match put_words(out, b"L", &[segment.x2, segment.y2]) {
        Ok(()) => Ok(()),
        Err(error) => Err(error),
    }
}

/// Appends segments as the data of a path. One that is drawn just as the one before it is left out.
pub(crate) fn put_segments(out: &mut Vec<u8>, segments: &[Segment]) -> Result<(), AllocError>
    ensures { OnOk result
        (out.new.items ≡ out.old.items ++ flat_map segment_text (thinned None segments.now)) }
{
    let mut last: Option<Segment> = None;
    for segment in segments {
        if !is_repeated(last, segment) {
            put_segment(out, segment)?;
            last = Some(*segment);
        }
    }
    Ok(())
}
