use crate::blank::{ROW, SLOTS};
use crate::line::Line;
use crate::line::Line::{Rows, Title};
use crate::scene::{Scene, TWO_STEPS};
use crate::told::Told;
use partial::placement::Placement;
use std::alloc::Global;
use std::fmt;

// The list schedule's four rows, as machine/start, fill the front of a buffer; one that is shorter is left as it is.
pub(crate) const ROWS: &[Line] = &[
    Title("rows of the best schedule"),
    Rows(0),
    Rows(3),
    Rows(4),
    Rows(5),
];

// What best answers, and the rows then.
#[derive(Drop)]
struct Written<'a> {
    best: Told,
    rows: &'a [Placement],
}

impl fmt::Display for Written<'_> {
    fn fmt<W: fmt::Write>(&self, f: &mut fmt::Formatter<W>) -> fmt::Result {
        write!(f, "{} rows: {}", self.rows.len(), self.best)?;
        for row in self.rows {
            write!(f, " {}/{}", row.machine, row.start)?;
        }
        Ok(())
    }
}

// The best rows in a buffer of so many.
pub(crate) fn write_rows(heap: Global, count: usize) -> anyhow::Result<String> {
    let mut slots = SLOTS;
    let mut rows = [ROW; 5];
    let rows = &mut rows[..count.min(5)];
    let Scene {
        graph,
        search,
        table,
        mut list,
    } = Scene::new(heap, &TWO_STEPS, &mut slots)?;
    let best = Told::number(search.best(&graph, &table, &mut list, rows));
    let written = Written { best, rows };
    Ok(format!(in heap; "{written}")?)
}
