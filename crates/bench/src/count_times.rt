//! How long ways of counting take.
ghost use Rattle.std.specs.Prelude.{◌<◌, length};

use crate::count_ways::{Answer, Input, Way};
use anyhow::bail;
use std::alloc::Global;
use std::time::{Clock, Duration, Instant};

/// Of so many runs the quickest one stands.
const RUNS: usize = 5;

/// A way of counting, and what it answers.
#[derive(Drop)]
pub struct Measured {
    pub way: Way,
    pub answer: Answer,
    /// The time of the quickest run so far; `Duration::MAX` before the first one.
    pub least: Duration,
}

impl Measured {
    /// What counting in that way answers, with no run timed yet.
    pub fn new(alloc: Global, way: Way, input: &Input) -> anyhow::Result<Measured>
        requires { input.now.language < length input.now.counter.now }
    {
        Ok(Measured {
            way,
            answer: way.answer(alloc, input)?,
            least: Duration::MAX,
        })
    }

    /// Times one run. It fails where that answers otherwise.
    fn run(&mut self, rt: &impl Clock, alloc: Global, input: &Input) -> anyhow::Result<()>
        requires { input.now.language < length input.now.counter.now }
    {
        let begun = Instant::now(rt)?;
        let again = self.way.answer(alloc, input)?;
        let took = begun.elapsed(rt)?;
        if again != self.answer {
            bail!("two runs of {} differ", self.way.name());
        }
        self.least = self.least.min(took);
        Ok(())
    }
}

/// Times some runs of each, in turn, so that a while in which the machine is slow meets all of
/// them.
pub fn time(
    rt: &impl Clock,
    alloc: Global,
    measured: &mut [Measured],
    input: &Input,
) -> anyhow::Result<()>
    requires { input.now.language < length input.now.counter.now }
{
    for _ in 0..RUNS {
        for one in measured.iter_mut() {
            one.run(rt, alloc, input)?;
        }
    }
    Ok(())
}
