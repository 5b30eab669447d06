//! The accesses.
ghost use Rattle.std.specs.Prelude.{◌≡◌, ◌+◌, ◌*◌, ◌<◌, ◌≤◌, [], length, vec_capacity};
ghost use Rattle.run_laws.specs.Run.{arrivals, home_of};
ghost use Rattle.switch_worker.specs.Finished.{IsFinished, AreFinished};
ghost use Rattle.run_answer.specs.Results.{AreEntries, AreEntriesTo};

use packet_steps::RunData;
use switch_worker::Worker;

/// Appends, for each arrival and group, which pipe served it there and what it touched. Both lists
/// have room for that.
pub fn push_entries(
    run: &RunData<'_>,
    workers: &[Worker<'_>],
    by: &mut Vec<u8>,
    touched: &mut Vec<u16>,
)
    requires finished { AreFinished run.now workers.now }
    requires by { by.old.items ≡ [] }
    requires touched { touched.old.items ≡ [] }
    requires by_room { arrivals run.now * length run.now.code.groups ≤ vec_capacity by.old }
    requires touched_room { arrivals run.now * length run.now.code.groups
        ≤ vec_capacity touched.old }
    ensures { AreEntries run.now by.new.items touched.new.items }
{
    for t in 0..count(run) {
        push_arrival(run, home(run, workers, t), t, by, touched);
    }
}

// Appends the accesses of an arrival, read off its home, behind those of all arrivals before it.
fn push_arrival(
    run: &RunData<'_>,
    worker: &Worker<'_>,
    t: u32,
    by: &mut Vec<u8>,
    touched: &mut Vec<u16>,
)
    requires arrival { t < arrivals run.now }
    requires home { IsFinished run.now (home_of run.now t) worker.now.pipe }
    requires before { AreEntriesTo run.now t 0 by.old.items touched.old.items }
    requires by_room { arrivals run.now * length run.now.code.groups ≤ vec_capacity by.old }
    requires touched_room { arrivals run.now * length run.now.code.groups
        ≤ vec_capacity touched.old }
    ensures entries { AreEntriesTo run.now (t + 1) 0 by.new.items touched.new.items }
    ensures by_room { vec_capacity by.new ≡ vec_capacity by.old }
    ensures touched_room { vec_capacity touched.new ≡ vec_capacity touched.old }
{
    for g in 0..groups(run) {
        push_entry(run, worker, t, g, by, touched);
    }
}

// Appends the access of an arrival at a group, read off its home.
fn push_entry(
    run: &RunData<'_>,
    worker: &Worker<'_>,
    t: u32,
    g: u32,
    by: &mut Vec<u8>,
    touched: &mut Vec<u16>,
)
    requires arrival { t < arrivals run.now }
    requires group { g < length run.now.code.groups }
    requires home { IsFinished run.now (home_of run.now t) worker.now.pipe }
    requires before { AreEntriesTo run.now t g by.old.items touched.old.items }
    requires by_room { length by.old.items < vec_capacity by.old }
    requires touched_room { length touched.old.items < vec_capacity touched.old }
    ensures entries { AreEntriesTo run.now t (g + 1) by.new.items touched.new.items }
    ensures by_room { vec_capacity by.new ≡ vec_capacity by.old }
    ensures touched_room { vec_capacity touched.new ≡ vec_capacity touched.old }
{
    let exit = worker.pipe.exit();
    prove!(exit.left() <= exit.entered());
    by.push_reserved(worker.pipe.by(t, g));
    touched.push_reserved(worker.pipe.touched(t, g));
}

// The home of an arrival among finished workers.
fn home<'w, 'a>(run: &RunData<'_>, workers: &'w [Worker<'a>], t: u32) -> &'w Worker<'a>
    requires { AreFinished run.now workers.now }
    ensures { IsFinished run.now (home_of run.now t) result.now.pipe }
{
    &workers[(t % pipelines(run)) as usize]
}

// How many arrivals there are.
fn count(run: &RunData<'_>) -> u32
    ensures { result ≡ arrivals run.now }
{
    run.capture.count()
}

// How many groups the code has.
fn groups(run: &RunData<'_>) -> u32
    ensures { result ≡ length run.now.code.groups }
{
    run.code.groups()
}

// How many pipes there are.
fn pipelines(run: &RunData<'_>) -> u32
    ensures { result ≡ run.now.settings.pipelines }
{
    run.settings.pipelines
}
