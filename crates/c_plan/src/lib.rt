// Plans for C: a plan's text read into a table, its points, and the lines of its listing, on
// numbers and lent arrays.
#![tactic(auto)]

ghost use Rattle.std.specs.Prelude.{◌≡◌, ◌≤◌, length};
ghost use Rattle.std.proofs.lemmas.List.Edits.{sets};
ghost use Rattle.c_plan.specs.Plan.{plan_result_count, plan_results, PlanReadCall, LinesCall};

use c_arrays::BAD_CALL;
use plan::{BadPlan, Plan, ROOM};

// How many results of reading there are (`plan_result_count` of the specs).
pub const PLAN_RESULTS: usize = 5;

// Reads a plan; out has the line of the refusal, the memory's words, the drawing, and the numbers
// of axes and points.
pub fn read(text: &[u8], table: &mut [u64], out: &mut [u64]) -> u32
    ensures { PlanReadCall text.now table.old out.old
        result table.new out.new }
{
    if (table.len() < ROOM) | (out.len() < PLAN_RESULTS) {
        return BAD_CALL;
    }
    let done = plan::read(text, table);
    hand_out(out, done);
    match done {
        Ok(_) => 0,
        Err(bad) => u32::from(bad.refused),
    }
}

// Stores the results at the array's start.
fn hand_out(out: &mut [u64], done: Result<Plan, BadPlan>)
    requires { plan_result_count ≤ length out.old }
    ensures { out.new ≡ sets out.old 0 (plan_results done) }
{
    let none = Plan {
        words: 0,
        draw: 0,
        axes: 0,
        points: 0,
    };
    let (line, plan) = match done {
        Ok(plan) => (0, plan),
        Err(bad) => (bad.line, none),
    };
    out[0] = line;
    out[1] = plan.words;
    out[2] = plan.draw;
    out[3] = plan.axes;
    out[4] = plan.points;
}

// Runs points of a plan from a first one on; out has their lines of the listing, and bytes[0] is
// how many bytes these are.
pub fn lines(
    table: &[u64],
    axes: u64,
    draw: u64,
    first: u64,
    count: u64,
    image: &mut [u16],
    memory: &mut [u16],
    out: &mut [u8],
    bytes: &mut [u64],
) -> u32
    ensures { LinesCall table.now axes draw first count
        image.old memory.old out.old bytes.old
        result image.new memory.new out.new bytes.new }
{
    if bytes.len() < 1 {
        return BAD_CALL;
    }
    let listed = running::lines(table, axes, draw, first, count, image, memory, out);
    let answer = answers::answer(&listed);
    if answer == BAD_CALL {
        return BAD_CALL;
    }
    bytes[0] = listed.unwrap_or(0) as u64;
    answer
}
