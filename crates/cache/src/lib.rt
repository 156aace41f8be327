// The instruction cache (scope, "Cache"; 004 section 5.4): four segments of eight subsegments, and
// the order of last use. No public function has a requires: a state that is no cache's is refused
// with 19, and stays with the caller.
#![tactic(auto)]

ghost use Rattle.std.specs.Prelude.{◌≡◌, false, Some, ◌<◌};
ghost use Rattle.answers.specs.Answer.{answer};
ghost use Rattle.segments.specs.Segments.{segment_count, flag_count};
ghost use Rattle.cache.specs.Cache.{bad_state, fetch_refusal, with_segment, matched, segment_miss};
ghost use Rattle.cache.specs.Cache.{lookup, fetched, cache_left, fresh_cache};
ghost use Rattle.cache.specs.Cache.{kind_number, kind_name};

use answers::Refused;
use segments::{FLAGS, SEGMENTS, Segment};
use std::fmt;

// 2^9: the bits of a segment.
const SEGMENT_BITS: u32 = 512;

// order[0] is the least recently used segment and order[3] the latest.
#[derive(Clone, Copy, Debug, PartialEq, Eq)]
pub struct Cache {
    pub segments: [Segment; SEGMENTS],
    pub order: [u8; SEGMENTS],
}

#[derive(Clone, Copy, Debug, PartialEq, Eq)]
pub enum Kind {
    Hit,
    SubsegmentMiss,
    SegmentMiss,
    Disabled,
}

impl From<Kind> for u32 {
    ghost from_gives = { λ kind n. n ≡ kind_number kind };

    fn from(kind: Kind) -> u32 {
        match kind {
            Kind::Hit => 0,
            Kind::SubsegmentMiss => 1,
            Kind::SegmentMiss => 2,
            Kind::Disabled => 3,
        }
    }
}

impl fmt::Display for Kind {
    ghost output = { λ kind. Some (kind_name kind) };

    fn fmt<W: fmt::Write>(&self, f: &mut fmt::Formatter<W>) -> fmt::Result {
        match self {
            Kind::Hit => f.write_str("hit"),
            Kind::SubsegmentMiss => f.write_str("subsegment miss"),
            Kind::SegmentMiss => f.write_str("segment miss"),
            Kind::Disabled => f.write_str("disabled"),
        }
    }
}

#[derive(Clone, Copy, Debug, PartialEq, Eq)]
pub struct Fetched {
    pub kind: Kind,
    pub cache: Cache,
}

impl Cache {
    // No flags, addresses 0, segment 0 least recently used and 3 latest.
    pub fn fresh() -> Cache
        ensures { result ≡ fresh_cache }
    {
        let empty = Segment {
            start: 0,
            present: [false; FLAGS],
        };
        Cache {
            segments: [empty; SEGMENTS],
            order: [0, 1, 2, 3],
        }
    }

    // A fetch at a bit address under CONTROL: the kind of answer and the next state. It is refused,
    // with 19, exactly where the state is.
    pub fn fetch(self, address: u32, control: u16) -> Result<Fetched, Refused>
        ensures { (result ≡ fetched self address control)
            × (answer result ≡ fetch_refusal self) }
    {
        let bad = self.is_bad_state();
        let disabled = control::disabled(control);
        if bad {
            return Err(Refused::CacheState);
        }
        if disabled {
            return Ok(Fetched {
                kind: Kind::Disabled,
                cache: self,
            });
        }
        let sub = (address / 64 % 8) as usize;
        Ok(self.looked_up(address / SEGMENT_BITS, sub))
    }

    // The state after this fetch of it: the next state, or itself where the fetch is refused.
    pub fn left(self, fetched: Result<Fetched, Refused>) -> Cache
        ensures { result ≡ cache_left self fetched }
    {
        match fetched {
            Ok(f) => f.cache,
            Err(_) => self,
        }
    }

    // A fetch of a subsegment of a start address, with the cache enabled.
    fn looked_up(self, start: u32, sub: usize) -> Fetched
        requires { (sub < flag_count) × (bad_state self ≡ false) }
        ensures { result ≡ lookup self start sub }
    {
        match segments::place(self.segments, start) {
            Some(i) => self.matched(i, sub),
            None => self.segment_miss(start, sub),
        }
    }

    // A fetch of a subsegment that segment i matches.
    fn matched(self, i: usize, sub: usize) -> Fetched
        requires { (i < segment_count) × (sub < flag_count) }
        ensures { result ≡ matched self i sub }
    {
        let mut segment = self.segments[i];
        if segment.present[sub] {
            return Fetched {
                kind: Kind::Hit,
                cache: self.with_segment(i, segment),
            };
        }
        segment.present[sub] = true;
        Fetched {
            kind: Kind::SubsegmentMiss,
            cache: self.with_segment(i, segment),
        }
    }

    // A fetch of a subsegment of a start address that no segment matches.
    fn segment_miss(self, start: u32, sub: usize) -> Fetched
        requires { (sub < flag_count) × (bad_state self ≡ false) }
        ensures { result ≡ segment_miss self start sub }
    {
        let oldest = usize::from(self.order[0]);
        let mut present = [false; FLAGS];
        present[sub] = true;
        Fetched {
            kind: Kind::SegmentMiss,
            cache: self.with_segment(oldest, Segment { start, present }),
        }
    }

    // The state with segment i set to s and the latest used.
    fn with_segment(mut self, i: usize, s: Segment) -> Cache
        requires { i < segment_count }
        ensures { result ≡ with_segment self i s }
    {
        self.segments[i] = s;
        self.order = order::used(self.order, i as u8);
        self
    }

    // Refusal 19.
    fn is_bad_state(self) -> bool
        ensures { result ≡ bad_state self }
    {
        order::is_bad_order(self.order)
            | segments::any_too_high(self.segments)
            | segments::any_clash(self.segments)
    }
}
