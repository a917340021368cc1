use partial::partial::PartialSchedule;
use partial::placement::Placement;

// A machine and a start for each of the first tasks that is placed.
pub(crate) type Places = &'static [Option<(u8, u32)>];

pub(crate) fn place((machine, start): (u8, u32)) -> Placement {
    Placement { machine, start }
}

pub(crate) fn placed(tasks: Places) -> PartialSchedule {
    let mut places = [None; 32];
    for (at, task) in places.iter_mut().zip(tasks) {
        *at = task.map(place);
    }
    PartialSchedule::from(places)
}
