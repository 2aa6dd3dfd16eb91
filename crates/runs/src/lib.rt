// The run of a condition (01, When a fault latches and lets go; 02, ticket 6), stored as one number, since C's record holds it: 0 where the condition
// fails, and else one more than the run's microseconds.
#![tactic(auto)]

ghost use Rattle.std.specs.Prelude.{◌≡◌};
ghost use Rattle.runs.specs.Stored.{run_next, stood};

// A stored run stops here, past every delay.
const RUN_CAP: u32 = 10_000_000;

// The stored run after one more accepted sample.
#[tactic(auto, unfolding(crate::specs::Stored::run_next))]
pub fn advance(run: u32, holds: bool, elapsed: u32) -> u32
    ensures { result ≡ run_next run holds elapsed }
{
    match (holds, run) {
        (false, _) => 0,
        (true, 0) => 1,
        (true, _) => run.saturating_add(elapsed).min(RUN_CAP),
    }
}

// The condition has stood its delay: its run is longer, and one that just equals its delay has not stood it, but for a delay of zero.
#[tactic(auto, unfolding(crate::specs::Stored::stood))]
pub fn has_stood(delay: u32, run: u32) -> bool
    ensures { result ≡ stood delay run }
{
    let above = match delay {
        0 => 0,
        _ => delay.saturating_add(1),
    };
    above < run
}
