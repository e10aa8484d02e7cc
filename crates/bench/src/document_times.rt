//! How long ways of printing and of parsing take.
use crate::document_ways::{Input, Way};
use std::alloc::Global;
use std::time::{Clock, Duration, Instant};

/// Of so many runs the quickest one stands.
const RUNS: usize = 5;

/// A way, and its quickest run.
#[derive(Drop)]
pub struct Measured {
    pub way: Way,
    /// The time of the quickest run so far; `Duration::MAX` before the first one.
    pub least: Duration,
}

impl Measured {
    /// The way, gone once, with no run timed yet.
    pub fn new(alloc: Global, way: Way, input: &Input) -> anyhow::Result<Measured> {
        way.go(alloc, input)?.check(input)?;
        Ok(Measured {
            way,
            least: Duration::MAX,
        })
    }

    /// Times one run.
    fn run(&mut self, rt: &impl Clock, alloc: Global, input: &Input) -> anyhow::Result<()> {
        let begun = Instant::now(rt)?;
        let answer = self.way.go(alloc, input)?;
        let took = begun.elapsed(rt)?;
        drop(answer);
        self.least = self.least.min(took);
        Ok(())
    }
}

/// Times some runs of each, in turn, so that a while in which the machine is slow meets all of
/// them.
pub fn time(
    rt: &impl Clock,
    alloc: Global,
    measured: &mut [Measured],
    input: &Input,
) -> anyhow::Result<()> {
    for _ in 0..RUNS {
        for one in measured.iter_mut() {
            one.run(rt, alloc, input)?;
        }
    }
    Ok(())
}
