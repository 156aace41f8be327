// Progress, where standard error is a terminal and what is written goes elsewhere: points done and
// of how many, the rate and the time left, at most once a second, each line over the last one.
use crate::program::LINE;
use crate::stream;
use crate::stream::Stream;
use crate::writer::Writer;
use std::io::IsTerminal;
use std::time::{Clock, CpuClock};

// How many points there are, and how many were done before; when the run began, and when progress
// was shown last, in seconds.
#[derive(Clone, Copy)]
pub struct Progress<'a> {
    rt: &'a HostRuntime,
    count: u64,
    before: u64,
    begun: u64,
    last: u64,
}

impl<'a> Progress<'a> {
    // That of a run which writes there, where it is shown.
    pub fn start(
        rt: &'a HostRuntime,
        to: Stream<'_>,
        before: u64,
        count: u64,
    ) -> Option<Progress<'a>> {
        if !rt.stderr().is_terminal() || stream::is_terminal(rt, to) {
            return None;
        }
        let begun = now(rt);
        Some(Progress {
            rt,
            count,
            before,
            begun,
            last: begun,
        })
    }
}

impl Progress<'_> {
    // A line, where the second is another.
    pub fn tell(&mut self, done: u64) {
        let t = now(self.rt);
        if t != self.last {
            self.show(t, done, false);
            self.last = t;
        }
    }

    // The last line.
    pub fn end(self, done: u64) {
        self.show(now(self.rt), done, true);
    }

    // `sweep: 61% of 20000 points, 400 a second, 19 s left`.
    fn show(self, t: u64, done: u64, last: bool) {
        let seconds = t.saturating_sub(self.begun);
        let run = done.saturating_sub(self.before);
        let time = if last {
            seconds
        } else {
            left(run, self.count.saturating_sub(done), seconds)
        };
        let mut space = [0u8; LINE];
        let mut line = Writer::over(&mut space);
        line.named(b"\rsweep: ", percent(done, self.count), b'%')
            .named(b" of ", self.count, b' ')
            .named(b"points, ", rate(run, seconds), b' ')
            .named(b"a second, ", time, b' ')
            .bytes(b"s ");
        stream::complain(self.rt, line.text());
        if last {
            stream::complain(self.rt, b"in all  \n");
        } else {
            stream::complain(self.rt, b"left  ");
        }
    }
}

// So many of a hundred.
fn percent(done: u64, count: u64) -> u64 {
    if count < 1 << 57 {
        if done < count {
            return done * 100 / count;
        }
        return 100;
    }
    done / (count / 100)
}

// Points a second.
fn rate(done: u64, seconds: u64) -> u64 {
    done.checked_div(seconds).unwrap_or(done)
}

// The seconds that the rest takes at the rate so far, which is reckoned by the hour.
fn left(done: u64, rest: u64, seconds: u64) -> u64 {
    if seconds == 0 {
        return 0;
    }
    if done < MANY && rest < MANY {
        return quotient(rest * HOUR, done * HOUR / seconds);
    }
    quotient(rest, done / seconds)
}

// More points than these are not reckoned by the hour.
const MANY: u64 = 1 << 50;

// Seconds of an hour.
const HOUR: u64 = 3600;

// A quotient: 0 where there is none, and that is shown.
fn quotient(a: u64, b: u64) -> u64 {
    a.checked_div(b).unwrap_or(0)
}

// The time in seconds: 0 where the clock tells none.
fn now(rt: &HostRuntime) -> u64 {
    rt.since_1970().map_or(0, |time| time.as_secs())
}

// The processor time spent, in millionths of a second: 0 where the clock tells none.
pub fn spent(rt: &HostRuntime) -> u64 {
    rt.process_cpu_time().map_or(0, |time| {
        let whole = time.as_secs().saturating_mul(MILLION);
        whole.saturating_add(u64::from(time.subsec_micros()))
    })
}

const MILLION: u64 = 1000000;
