//! The packets.
ghost use Rattle.std.specs.Prelude.{◌≡◌, ◌*◌, length};
ghost use Rattle.egress_order.specs.OwnPackets.{IsExit};
ghost use Rattle.run_laws.specs.Run.{arrivals};
ghost use Rattle.pipe_worker.specs.Laws.{IsPipe};
ghost use Rattle.switch_worker.specs.Finished.{AreFinished};
ghost use Rattle.run_answer.specs.Results.{ArePackets};

use egress_order::{HomeExit, merge};
use packet_steps::RunData;
use switch_worker::Worker;

/// Writes the packets of finished workers into a table with a row for each arrival.
pub fn write_packets(run: &RunData<'_>, workers: &[Worker<'_>], packets: &mut [i32])
    requires finished { AreFinished run.now workers.now }
    requires size { length packets.old ≡ arrivals run.now * run.now.code.fields }
    ensures { ArePackets run.now packets.new }
{
    for worker in workers {
        merge(exit_of(worker), packets);
    }
}

// The own packets of a worker.
fn exit_of<'w>(worker: &'w Worker<'_>) -> &'w HomeExit
    ensures exit { result.now ≡ worker.now.pipe.door.exit }
    ensures counts { IsExit result.now }
    ensures laws { IsPipe worker.now.pipe }
{
    let exit = worker.pipe.exit();
    prove!(exit.left() <= exit.entered());
    exit
}
