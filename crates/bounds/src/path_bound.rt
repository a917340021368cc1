ghost use Rattle.std.specs.Prelude.{◌≡◌, ◌<◌};
ghost use Rattle.model.specs.Range.{top};
ghost use Rattle.model.specs.Graph.{level};
ghost use Rattle.model.specs.Bounds.{path_at};
ghost use Rattle.loader.specs.Meaning.{the_graph};
ghost use Rattle.partial.specs.Meaning.{the_partial};

use crate::lower_bound::LowerBound;
use loader::graph::TaskGraph;
use partial::partial::PartialSchedule;

// The greatest of all bottom levels and of start plus bottom level over placed tasks.
#[derive(Clone, Copy)]
pub struct PathBound;

// The greatest bottom level.
fn greatest_level(g: &TaskGraph) -> u64
    ensures { result ≡ top (the_graph g.now).tasks (level (the_graph g.now)) }
{
    let levels = g.bottom_levels();
    levels.iter().map(|&l| u64::from(l)).max().unwrap_or(0)
}

// Start plus bottom level of task t if it is placed, else 0.
fn path_at(g: &TaskGraph, q: &PartialSchedule, t: usize) -> u64
    requires { t < (the_graph g.now).tasks }
    ensures { result ≡ path_at (the_graph g.now) (the_partial q.now) t }
{
    q.placement(t).map_or(0, |p| {
        u64::from(p.start) + u64::from(g.bottom_levels()[t])
    })
}

// The greatest start plus bottom level of a placed task, 0 where none is placed.
fn greatest_path(g: &TaskGraph, q: &PartialSchedule) -> u64
    ensures { result
        ≡ top (the_graph g.now).tasks (path_at (the_graph g.now) (the_partial q.now)) }
{
    (0..g.tasks()).map(|t| path_at(g, q, t)).max().unwrap_or(0)
}

impl LowerBound for PathBound {
    ghost use Rattle.model.specs.Bounds.{path_bound};
    ghost use Rattle.model.proofs.Paths.{path-lower};

    ghost number = { λ _. path_bound };

    ghost lower = { λ _. path-lower };

    fn bound(&self, g: &TaskGraph, q: &PartialSchedule) -> u64 {
        greatest_level(g).max(greatest_path(g, q))
    }
}
