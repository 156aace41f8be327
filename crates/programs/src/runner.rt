// A plan's points, and what runs them.
ghost use Rattle.std.specs.Prelude.{◌+◌, ◌^◌, ◌<◌, ◌≤◌, length, IfOk};

use crate::program::Program;
use crate::stop::Stop;
use answers::Refused;
use drawing::Outcome;
use operation::Operation;
use plan::Plan;
use settings::Settings;

// Some points: `count` of them from `first` on, or as many as there are. No type of its own says
// that their numbers are below 2^64: the user asks for such a range too, and `Points::in_range`
// cuts it.
#[derive(Clone, Copy)]
pub struct PointRange {
    pub first: u64,
    pub count: u64,
}

impl PointRange {
    pub const ALL: PointRange = PointRange {
        first: 0,
        count: u64::MAX,
    };
}

// The points of a plan, with the lent table of its axes.
#[derive(Clone, Copy)]
pub struct Points<'a> {
    pub plan: Plan,
    pub table: &'a [u64],
}

impl Points<'_> {
    // The points of a range that there are. With count 0 no point is asked for.
    pub fn in_range(self, sweep: Program<'_>, range: PointRange) -> Result<PointRange, Stop>
        ensures { IfOk result (λ p. p.first + p.count < 2 ^ 64) }
    {
        let PointRange { first, count } = range;
        let points = self.plan.points;
        if points <= first && count != 0 {
            return Err(sweep.no_point(first, points));
        }
        let count = asked_of(points, range);
        Ok(PointRange { first, count })
    }

    // The fourteen values of a point that there is.
    pub fn values(self, point: u64) -> Option<[u64; names::COUNT]> {
        let mut values = [0u64; names::COUNT];
        decoding::experiment(self.table, self.plan.axes, point, &mut values).ok()?;
        Some(values)
    }

    // Can a line, without its end, be that of a point? It tells all but `changed`.
    pub fn could_be(self, point: u64, line: &[u8]) -> bool {
        let p = self.plan;
        beginning::could_be(self.table, p.axes, p.draw, p.words as usize, point, line)
    }
}

// How many points of a range there are.
fn asked_of(points: u64, range: PointRange) -> u64
    ensures { range.first + result < 2 ^ 64 }
{
    points.saturating_sub(range.first).min(range.count)
}

// What runs a plan's points, over two lent memories of the plan's size. They stand where a runner
// is made, as nothing is allocated.
#[derive(Drop)]
pub struct Runner<'a> {
    pub points: Points<'a>,
    image: &'a mut [u16],
    memory: &'a mut [u16],
}

impl<'a> Runner<'a> {
    pub fn over(points: Points<'a>, image: &'a mut [u16], memory: &'a mut [u16]) -> Runner<'a> {
        let words = words_of(points.plan, image, memory);
        Runner {
            points,
            image: &mut image[..words],
            memory: &mut memory[..words],
        }
    }
}

impl Runner<'_> {
    // Puts the lines of the points of a range at the buffer's start, and gives how many bytes they
    // have.
    pub fn lines(&mut self, range: PointRange, out: &mut [u8]) -> Result<usize, Refused>
        ensures { IfOk result (λ n. n ≤ length out.new) }
    {
        let Points { plan, table } = self.points;
        let PointRange { first, count } = range;
        let (image, memory) = (&mut *self.image, &mut *self.memory);
        let listed = running::lines(
            table, plan.axes, plan.draw, first, count, image, memory, out,
        );
        Ok(listed?.min(out.len()))
    }

    // Puts the line of a point into a space, and lends it: an empty one where there is none.
    pub fn line<'a>(&mut self, point: u64, space: &'a mut [u8]) -> &'a [u8] {
        let range = PointRange {
            first: point,
            count: 1,
        };
        let n = self.lines(range, space).unwrap_or(0);
        &space[..n]
    }

    // What a drawing over the image of a seed hands back, and how many bits it changes. A plan has
    // at least a word of memory, and no more than an image may: neither call refuses it.
    pub fn drawn(&mut self, op: Operation, s: Settings, seed: u64) -> (Outcome, u64) {
        let (image, memory) = (&mut *self.image, &mut *self.memory);
        let _ = image::fill_image(image, seed);
        let _ = image::fill_image(memory, seed);
        let outcome = drawing::draw(memory, op, s, 0, false, drawing::UNLIMITED);
        (outcome, memory::changed(image, memory).unwrap_or(0))
    }
}

// How many words of the two memories a plan's points are run over.
fn words_of(p: Plan, image: &[u16], memory: &[u16]) -> usize
    ensures upper_bound { result ≤ length image.now }
    ensures upper_bound_2 { result ≤ length memory.now }
{
    p.words.min(image.len() as u64).min(memory.len() as u64) as usize
}
