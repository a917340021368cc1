use crate::answers::Answers;
use crate::blank::SLOTS;
use crate::graphs::Draft;
use crate::scene::{Origin, Scene, TWO_STEPS};
use nodes::node::{Node, Status};
use nodes::table::Table;
use partial::partial::PartialSchedule;
use partial::placement::Placement;
use queue::entry::Entry;
use queue::open_list::OpenList;
use std::alloc::Global;

// What is changed of a scene before it is asked.
pub(crate) enum Change {
    // Node i is one of this status and bound, with task, machine and start of each task that it places.
    Node(usize, Status, u64, &'static [(usize, u8, u32)]),
    // So many entries are taken from the list, and these are put. Node 7, which is not used, looks like one that waits.
    Entries(usize, &'static [Entry]),
    // The graph, the table or the list is another.
    Graph(Draft),
    Table(Origin),
    List(Origin),
}

// A node of this status and bound, with task, machine and start of each task that it places.
fn node(status: Status, bound: u64, places: &[(usize, u8, u32)]) -> Node {
    let mut all = [None; 32];
    for &(task, machine, start) in places {
        if let Some(place) = all.get_mut(task) {
            *place = Some(Placement { machine, start });
        }
    }
    Node {
        partial: PartialSchedule::from(all),
        bound,
        status,
    }
}

// The table of another search.
fn other_table(heap: Global, origin: &Origin) -> anyhow::Result<Table> {
    let mut slots = SLOTS;
    Ok(Scene::new(heap, origin, &mut slots)?.table)
}

// The answers with the list of another search.
fn answers_with_list(
    heap: Global,
    name: &'static str,
    scene: Scene<'_>,
    origin: &Origin,
) -> anyhow::Result<Answers> {
    let mut slots = SLOTS;
    let list = Scene::new(heap, origin, &mut slots)?.list;
    let Scene {
        graph,
        search,
        table,
        list: _,
    } = scene;
    let scene = Scene {
        graph,
        search,
        table,
        list,
    };
    Ok(scene.answers(name))
}

// The answers of the scene after a change.
pub(crate) fn answers_after(
    heap: Global,
    name: &'static str,
    change: &Change,
) -> anyhow::Result<Answers> {
    let mut slots = SLOTS;
    let mut scene = Scene::new(heap, &TWO_STEPS, &mut slots)?;
    match change {
        Change::Node(number, status, bound, places) => {
            scene.table.write(*number, node(*status, *bound, places));
        }
        Change::Entries(taken, put) => {
            scene.table.write(7, node(Status::Waiting, 7, &[(0, 0, 0)]));
            for _ in 0..*taken {
                let _ = scene.list.take();
            }
            for entry in *put {
                let _ = scene.list.put(*entry);
            }
        }
        Change::Graph(draft) => scene.graph = draft.graph()?,
        Change::Table(origin) => scene.table = other_table(heap, origin)?,
        Change::List(origin) => return answers_with_list(heap, name, scene, origin),
    }
    Ok(scene.answers(name))
}
