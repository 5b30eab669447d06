//! The counts.
ghost use Rattle.std.specs.Prelude.{◌≡◌, ◌+◌, ◌<◌, ◌≤◌, ◌++◌, ℕ, List, [], length, sum, vec_len, vec_capacity};
ghost use Rattle.shard_rounds.specs.declared.plan.Move.{Move};
ghost use Rattle.code_forms.specs.Staged.{group_at, unit_count};
ghost use Rattle.run_laws.specs.Run.{arrivals, load_below, unit_counts};
ghost use Rattle.run_laws.specs.LawfulPlans.{AreAllPlans, row_below};
ghost use Rattle.switch_worker.specs.Finished.{AreFinished};
ghost use Rattle.run_answer.specs.Results.{place_counts};

use packet_steps::RunData;
use switch_worker::Worker;

/// Appends how often each unit was served, by group and unit. There is room for that.
pub fn push_counts(run: &RunData<'_>, workers: &[Worker<'_>], counts: &mut Vec<u32>)
    requires finished { AreFinished run.now workers.now }
    requires plans { (plans : List (List Move)) × AreAllPlans run.now plans }
    requires empty { counts.old.items ≡ [] }
    requires room { sum (unit_counts run.now) ≤ vec_capacity counts.old }
    ensures { counts.new.items ≡ place_counts run.now }
{
    for g in 0..run.code.groups() {
        push_group(run, workers, g, counts);
    }
}

// Appends how often each unit of a group was served.
fn push_group(run: &RunData<'_>, workers: &[Worker<'_>], g: u32, counts: &mut Vec<u32>)
    requires finished { AreFinished run.now workers.now }
    requires plans { (plans : List (List Move)) × AreAllPlans run.now plans }
    requires group { g < length run.now.code.groups }
    requires room { vec_len counts.old + unit_count run.now.code (group_at run.now.code g)
        ≤ vec_capacity counts.old }
    ensures items { counts.new.items ≡ counts.old.items ++ row_below
        (λ u. load_below run.now g u (arrivals run.now))
        (unit_count run.now.code (group_at run.now.code g)) }
    ensures len { vec_len counts.new
        ≡ vec_len counts.old + unit_count run.now.code (group_at run.now.code g) }
    ensures capacity { vec_capacity counts.new ≡ vec_capacity counts.old }
{
    for u in 0..run.code.units(g) {
        counts.push_reserved(served(run, workers, g, u));
    }
}

// How often a unit was served, at all pipes together.
fn served(run: &RunData<'_>, workers: &[Worker<'_>], g: u32, u: u32) -> u32
    requires finished { AreFinished run.now workers.now }
    requires plans { (plans : List (List Move)) × AreAllPlans run.now plans }
    requires group { g < length run.now.code.groups }
    requires unit { u < unit_count run.now.code (group_at run.now.code g) }
    ensures { result ≡ load_below run.now g u (arrivals run.now) }
{
    let mut count = 0;
    for worker in workers {
        count += worker.pipe.count(g, u);
    }
    count
}
