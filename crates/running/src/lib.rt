// The points of a plan, run: `lines` puts their listing lines, and has no requires.
#![tactic(auto)]

ghost use Rattle.std.specs.Prelude.{◌≡◌, false, ◌+◌, ◌*◌, ◌^◌, ◌<◌, ◌≤◌, length};
ghost use Rattle.memory.specs.Bits.{no_memory};
ghost use Rattle.image.specs.Image.{image};
ghost use Rattle.settings.specs.Settings.{settings_of};
ghost use Rattle.drawing.specs.Draw.{unlimited, drawn};
ghost use Rattle.points.specs.Points.{experiment};
ghost use Rattle.points.specs.Table.{axes_in, points_in};
ghost use Rattle.listing.specs.Listing.{put};
ghost use Rattle.run.specs.Run.{seed_of, ran_over, line_of, image_for, memory_for, point_line};
ghost use Rattle.run.specs.Lines.{point_lines, longest, after_last, ends_past, listed_of, written};
ghost use Rattle.run.specs.Lines.{image_after, memory_after};
ghost use Rattle.running.specs.Progress.{HoldsImage, progressed};

use answers::Refused;
use operation::Operation;
use run::Ran;
use settings::Settings;

// Copies a memory over another of its size. By index: with `copy_from_slice` the library for C asks
// for `memmove`.
fn copy(from: &[u16], to: &mut [u16])
    requires { length from.now ≡ length to.old }
    ensures { to.new ≡ from.now }
{
    for i in 0..to.len() {
        to[i] = from[i];
    }
}

// The image of a seed, made where the memory does not hold it already.
fn prepare(memory: &mut [u16], seed: u64, held: Option<u64>)
    requires { (no_memory (length memory.old) ≡ false) × HoldsImage held memory.old }
    ensures { memory.new ≡ image (length memory.old) seed }
{
    if held == Some(seed) {
        return;
    }
    image::fill_image(memory, seed).unwrap();
}

// A whole drawing over an image, in a memory of its size.
fn run_over(image: &[u16], memory: &mut [u16], op: Operation, s: Settings) -> Ran
    requires { (length image.now ≡ length memory.old)
        × (no_memory (length image.now) ≡ false) }
    ensures { (result ≡ ran_over op s image.now)
        × (memory.new ≡ drawn op s 0 unlimited image.now) }
{
    copy(image, memory);
    let o = drawing::draw(memory, op, s, 0, false, drawing::UNLIMITED);
    let changed = memory::changed(image, memory).unwrap_or(0);
    let time = fill_timing::fill_time(op, s, o.visited);
    Ran {
        answer: o.answer,
        visited: o.visited,
        v: o.v,
        changed,
        states: time.states,
    }
}

// The settings and the seed of a point.
#[derive(Clone, Copy)]
struct Experiment {
    settings: Settings,
    seed: u64,
}

fn experiment_of(table: &[u64], axes: u64, point: u64) -> Experiment
    requires { point < points_in axes table.now }
    ensures settings_value { result.settings
        ≡ settings_of (experiment (axes_in axes table.now) point) }
    ensures seed_value { result.seed ≡ seed_of (experiment (axes_in axes table.now) point) }
{
    let mut values = [0u64; names::COUNT];
    // The point is there, so that it is not refused.
    let _ = decoding::experiment(table, axes, point, &mut values);
    let settings = settings::settings_of(&values);
    Experiment {
        settings,
        seed: values[names::SEED],
    }
}

// Puts the listing line of a point.
fn put_line(out: &mut [u8], at: usize, point: u64, ran: Ran) -> usize
    requires { at + length (line_of point ran) ≤ length out.old }
    ensures value { result ≡ at + length (line_of point ran) }
    ensures out_after { out.new ≡ put at (line_of point ran) out.old }
{
    put_lines::numbers(out, at, &ran.numbers(point))
}

// What a run has done before a point: the seed of the image, where one was made, and the bytes of
// listing.
#[derive(Clone, Copy)]
struct Progress {
    seed: Option<u64>,
    at: usize,
}

// Runs one point: makes its image where it is not there, draws, and puts its line.
fn run_point(
    table: &[u64],
    axes: u64,
    draw: u64,
    point: u64,
    p: Progress,
    image: &mut [u16],
    memory: &mut [u16],
    out: &mut [u8],
) -> Progress
    requires point_bound { point < points_in axes table.now }
    requires image_value { (no_memory (length image.old) ≡ false)
        × (length image.old ≡ length memory.old) }
    requires holds_image { HoldsImage p.seed image.old }
    requires longest_in_bounds { p.at + longest ≤ length out.old }
    ensures result_value { let n = length image.old in
        let held = axes_in axes table.now in
        result ≡ progressed n draw held point p }
    ensures image_after { let n = length image.old in
        let held = axes_in axes table.now in
        image.new ≡ image_for n (experiment held point) }
    ensures memory_after { let n = length image.old in
        let held = axes_in axes table.now in
        memory.new ≡ memory_for n draw (experiment held point) }
    ensures out_after { let n = length image.old in
        let held = axes_in axes table.now in
        out.new ≡ put p.at (point_line n draw held point) out.old }
{
    let e = experiment_of(table, axes, point);
    prepare(image, e.seed, p.seed);
    let op = operation::operation_of(draw);
    let ran = run_over(image, memory, op, e.settings);
    let at = put_line(out, p.at, point, ran);
    Progress {
        seed: Some(e.seed),
        at,
    }
}

// Runs points one after another. An image is made again only where the seed changes.
fn run_points(
    table: &[u64],
    axes: u64,
    draw: u64,
    first: u64,
    count: u64,
    image: &mut [u16],
    memory: &mut [u16],
    out: &mut [u8],
) -> usize
    requires count_value { (ends_past (points_in axes table.now) first count ≡ false)
        × (first + count < 2 ^ 64) }
    requires image_value { (no_memory (length image.old) ≡ false)
        × (length image.old ≡ length memory.old) }
    requires count_in_bounds { longest * count ≤ length out.old }
    ensures result_value { let n = length image.old in
        let held = axes_in axes table.now in
        result ≡ length (point_lines n draw held first count) }
    ensures image_after { let i = image.old in let held = axes_in axes table.now in
        image.new ≡ after_last (image_for (length i)) i held first count }
    ensures memory_after { let n = length image.old in
        let held = axes_in axes table.now in
        memory.new
        ≡ after_last (memory_for n draw) memory.old held first count }
    ensures out_after { let n = length image.old in
        let held = axes_in axes table.now in
        out.new ≡ put 0 (point_lines n draw held first count) out.old }
{
    let mut p = Progress { seed: None, at: 0 };
    for i in 0..count {
        p = run_point(table, axes, draw, first + i, p, image, memory, out);
    }
    p.at
}

// Runs `count` points of a plan from `first` on, and puts their listing lines at the start of out;
// image and memory are left as the last point left them. Gives how many bytes the lines have. With
// a refusal nothing changes: Arguments (the memories are not of one size up to 32,768 words, the
// drawing is above 7, or out has no room for lines of LINE bytes), Memory (they are empty) or Point
// (a point that is asked for is not below the plan's count). With count 0 no point is asked for.
pub fn lines(
    table: &[u64],
    axes: u64,
    draw: u64,
    first: u64,
    count: u64,
    image: &mut [u16],
    memory: &mut [u16],
    out: &mut [u8],
) -> Result<usize, Refused>
    ensures result_value { let i = image.old in let m = memory.old in
        let o = out.old in let t = table.now in
        result ≡ listed_of (length i) (length m) (length o) draw axes t first count }
    ensures image_after { let i = image.old in let m = memory.old in
        let o = out.old in let t = table.now in
        image.new ≡ image_after i (length m) (length o) draw axes t first count }
    ensures memory_after { let i = image.old in let m = memory.old in
        let o = out.old in let t = table.now in
        memory.new ≡ memory_after m (length i) (length o) draw axes t first count }
    ensures out_after { let i = image.old in let m = memory.old in
        let o = out.old in let t = table.now in
        out.new
        ≡ put 0 (written (length i) (length m) (length o) draw axes t first count) o }
{
    if asked::bad_shape(image.len(), memory.len(), draw, count, out.len()) {
        return Err(Refused::Arguments);
    }
    if memory::no_memory(image.len()) {
        return Err(Refused::Memory);
    }
    if asked::ends_past(counting::points(table, axes), first, count) {
        return Err(Refused::Point);
    }
    Ok(run_points(table, axes, draw, first, count, image, memory, out))
}
