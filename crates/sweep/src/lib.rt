// The sweep over the planner's table: every slot in order, and from each that is reached the runs that start there.
#![tactic(auto)]

ghost use Rattle.std.specs.Prelude.{◌≡◌, ◌*◌, ◌<◌};
ghost use Rattle.paths.specs.Plan as P;
ghost use Rattle.relax.specs.Table.{table_of};
ghost use Rattle.starts.specs.Starts.{job_in};

use relax::Paths;
use starts::{Task, above_run};

// The runs that start at slot s, where some path ends.
fn step(paths: &mut Paths, task: &Task, s: usize)
    requires { s < task.now.terms.n * 2 }
    ensures { table_of paths.new
        ≡ P.stepped (job_in task.now.terms task.now.xs.now task.now.sums.now.short task.now.sums.now.full) s (table_of paths.old) }
{
    let c = paths.cost[s];
    if c < f32::INFINITY {
        let p = s / 2;
        let k = s % 2 == 1;
        task.index_run(paths, p, k, c);
        above_run(paths, &task.lengths.above, task.sums, task.terms, p, k, c);
    }
}

// Every slot in order.
pub fn sweep(paths: &mut Paths, task: &Task)
    ensures { table_of paths.new
        ≡ P.swept (job_in task.now.terms task.now.xs.now task.now.sums.now.short task.now.sums.now.full) (task.now.terms.n * 2) (table_of paths.old) }
{
    for s in 0..task.terms.n * 2 {
        step(paths, task, s);
    }
}
