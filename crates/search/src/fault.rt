// Why a call on a search is refused: the table has too few or too many nodes, the list is not empty or cannot hold an
// entry for each node, the memory is not this search's, or a shorter schedule may exist.
#[derive(Clone, Copy, PartialEq, Eq, Debug)]
pub enum SearchFault {
    Table,
    List,
    Foreign,
    Unsettled,
}

// Why rows or text are not written: the search refuses, or the buffer is too short.
#[derive(Clone, Copy, PartialEq, Eq, Debug)]
pub enum PageFault {
    Search(SearchFault),
    Short,
}

impl From<SearchFault> for PageFault {
    ghost use Rattle.std.specs.Prelude.{◌≡◌};
    ghost use Rattle.search.specs.declared.fault.PageFault.TheVariants.{Search};

    ghost from_gives = { λ e r. r ≡ Search e };

    fn from(value: SearchFault) -> PageFault {
        PageFault::Search(value)
    }
}
