ghost use Rattle.cases.specs.Table.{NewGraph, FilesRead, Levels, ListSchedule, Bounds, Checks, Overlaps, Refused, Searches, ExampleSearched, Rounds, Numbers, Wordings, ExamplePage, FirstTests, OpenPage, WithDuplicates, BestStays, FiveTasks};

// The worked cases, as equalities that the checker computes.
pub fn worked_cases()
    ensures new { NewGraph }
    ensures read { FilesRead }
    ensures levels { Levels }
    ensures list { ListSchedule }
    ensures bounds { Bounds }
    ensures checks { Checks }
    ensures overlaps { Overlaps }
    ensures refused { Refused }
    ensures searches { Searches }
    ensures searched { ExampleSearched }
    ensures rounds { Rounds }
    ensures numbers { Numbers }
    ensures wordings { Wordings }
    ensures page { ExamplePage }
    ensures open_page { OpenPage }
    ensures first { FirstTests }
    ensures duplicates { WithDuplicates }
    ensures stays { BestStays }
    ensures five { FiveTasks }
{}
