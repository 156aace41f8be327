// --help of sweep.
use crate::program::Program;
use crate::stop::Stop;
use crate::stream::Stream;

// Writes it, in two pieces.
pub fn tell(sweep: Program<'_>) -> Result<(), Stop> {
    sweep.lines(Stream::Standard, USAGE)?;
    sweep.lines(Stream::Standard, REST)
}

const USAGE: &[u8] = b"\
sweep runs every point of a plan and writes its listing.\n\
\n\
\x20 sweep PLAN [FIRST COUNT]\n\
\x20     the listing, or COUNT points of it from FIRST on\n\
\x20 sweep --points PLAN\n\
\x20     how many points there are\n\
\x20 sweep --experiments PLAN [FIRST COUNT]\n\
\x20     the fourteen values of each point, in place of its results\n\
\x20 sweep --fields PLAN [FIRST COUNT]\n\
\x20     the same with packed numbers taken apart\n\
\x20 sweep --at [--experiments | --fields] PLAN\n\
\x20     the points whose numbers stand on standard input\n\
\x20 sweep --resume PLAN FILE [FIRST COUNT]\n\
\x20     goes on after the last whole line of FILE\n\
\x20 sweep --help (or -h), sweep --version\n";

const REST: &[u8] = b"\n\
PLAN is a file, or - for standard input. The heading stands before point 0.\n\
Status: 0 done, 1 the plan is refused, 2 an error (one line on standard error).\n\
Progress is shown where standard error is a terminal and the listing goes elsewhere.\n";
