//! Own events, and how many pipes there are.
ghost use Rattle.std.specs.Prelude.{◌≡◌};
ghost use Rattle.pipe_driver.specs.Driver.{HasQueues};
ghost use Rattle.pipe_driver.specs.Turning.{Turns};

use pipe_worker::{Pipe, Turn};

// How many pipes there are, of which there are few.
pub(crate) fn pipes(pipe: &Pipe<'_>, lanes: usize) -> u32
    requires { lanes ≡ pipe.now.run.settings.pipelines }
    ensures { result ≡ lanes }
{
    // a pipe's laws bound how many there are
    prove!(pipe.exit().entered() == pipe.entered());
    lanes as u32
}

// The most own events between two looks at the lanes.
const MOST: u32 = 256;

// Does own events while one is ready, and tells whether it did one.
pub(crate) fn turns(pipe: &mut Pipe<'_>) -> bool
    requires { HasQueues pipe.old }
    ensures turns { Turns pipe.old pipe.new }
    ensures queues { HasQueues pipe.new }
{
    let mut did = false;
    for _ in 0..MOST {
        if !turn(pipe) {
            return did;
        }
        did = true;
    }
    true
}

// Does one own event, if one is ready, and tells whether it did.
fn turn(pipe: &mut Pipe<'_>) -> bool
    requires { HasQueues pipe.old }
    ensures turns { Turns pipe.old pipe.new }
    ensures queues { HasQueues pipe.new }
{
    // a pipe's laws, before the event and after it
    prove!(pipe.exit().entered() == pipe.entered());
    let done = pipe.turn();
    prove!(pipe.exit().entered() == pipe.entered());
    done == Turn::Did
}
