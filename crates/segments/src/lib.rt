// The four segments of the instruction cache: what makes them no state of a cache, and which one a
// fetch matches. No public function has a requires.
#![tactic(auto)]

ghost use Rattle.std.specs.Prelude.{◌≡◌, cond, Some, None};
ghost use Rattle.lists.specs.Search.{any, first, any_pair};
ghost use Rattle.segments.specs.Segments.{holds_some, too_high, clash, matches};

// The segments of the cache.
pub const SEGMENTS: usize = 4;

// The subsegments of a segment, each with a flag.
pub const FLAGS: usize = 8;

// The highest start address.
const MOST_START: u32 = 8388607;

// Bits 9 to 31 of the segment's bit address, and a flag for each of its subsegments of 4 words.
#[derive(Clone, Copy, Debug, PartialEq, Eq)]
pub struct Segment {
    pub start: u32,
    pub present: [bool; FLAGS],
}

impl Segment {
    // Is one of the segment's flags set?
    fn holds_some(self) -> bool
        ensures { result ≡ holds_some self }
    {
        self.present.iter().any(|flag| *flag)
    }

    // Do both segments hold something, and have the same start address?
    fn clashes(self, other: Segment) -> bool
        ensures { result ≡ clash self other }
    {
        self.start == other.start && self.holds_some() && other.holds_some()
    }

    // Does the segment match the start address?
    fn is_match(self, start: u32) -> bool
        ensures { result ≡ matches start self }
    {
        self.holds_some() & (start == self.start)
    }
}

// Is some start address above 2^23 - 1?
pub fn any_too_high(segments: [Segment; SEGMENTS]) -> bool
    ensures { result ≡ any too_high segments }
{
    segments.iter().any(|s| MOST_START < s.start)
}

// Do two segments that hold something have the same start address?
pub fn any_clash(segments: [Segment; SEGMENTS]) -> bool
    ensures { result ≡ any_pair clash segments }
{
    lists::any_pair(&segments, Segment::clashes)
}

// The first segment that matches the start address.
pub fn place(segments: [Segment; SEGMENTS], start: u32) -> Option<usize>
    ensures { let found = first (matches start) segments in
        result ≡ cond (any (matches start) segments) (Some found) None }
{
    segments.iter().position(|s| s.is_match(start))
}
