// Plans: a text, its points, and the lines of its listing.
ghost use Rattle.std.specs.Prelude.{◌≡◌, length};
ghost use Rattle.points.specs.Table.{answer_for, out_after};
ghost use Rattle.listing.specs.Listing.{put_if, index_after, heading, refused_line};
ghost use Rattle.c_plan.specs.Plan.{PlanReadCall, LinesCall};

// Reads a plan; out has the line of the refusal, the memory's words, the drawing, and the numbers
// of axes and points.
#[unsafe(no_mangle)]
pub extern "C" fn bh_plan_read(text: &[u8], table: &mut [u64], out: &mut [u64]) -> u32
    ensures { PlanReadCall text.now table.old out.old
        result table.new out.new }
{
    c_plan::read(text, table, out)
}

// The fourteen values of a point.
#[unsafe(no_mangle)]
pub extern "C" fn bh_experiment(table: &[u64], axes: u64, point: u64, out: &mut [u64]) -> u32
    ensures { let t = table.now in let o = out.old in
        (result ≡ answer_for axes t point o) × (out.new ≡ out_after axes t point o) }
{
    answers::answer(&decoding::experiment(table, axes, point, out))
}

// Runs points of a plan from a first one on; out has their lines of the listing, and bytes[0] is
// how many bytes these are.
#[unsafe(no_mangle)]
pub extern "C" fn bh_lines(
    table: &[u64],
    axes: u64,
    draw: u64,
    first: u64,
    count: u64,
    image: &mut [u16],
    memory: &mut [u16],
    out: &mut [u8],
    bytes: &mut [u64],
) -> u32
    ensures { LinesCall table.now axes draw first count
        image.old memory.old out.old bytes.old
        result image.new memory.new out.new bytes.new }
{
    c_plan::lines(table, axes, draw, first, count, image, memory, out, bytes)
}

// Puts the listing's heading.
#[unsafe(no_mangle)]
pub extern "C" fn bh_put_heading(out: &mut [u8], at: usize) -> usize
    ensures { let o = out.old in
        (result ≡ index_after at heading (length o)) × (out.new ≡ put_if at heading o) }
{
    first_line::put_heading(out, at)
}

// Puts the line of a refused plan.
#[unsafe(no_mangle)]
pub extern "C" fn bh_put_refused(out: &mut [u8], at: usize, number: u64, line: u64) -> usize
    ensures { let o = out.old in let text = refused_line number line in
        (result ≡ index_after at text (length o)) × (out.new ≡ put_if at text o) }
{
    first_line::put_refused(out, at, number, line)
}
