ghost use Rattle.model.specs.Laws.{
  CycleTestDecides,
  FeasibleCompletesEmpty,
  ChildCompletesParent,
  ChoicesAre,
  ChoicesInOrder,
  ChildrenCover,
  CompleteIsFeasible,
};
ghost use Rattle.model.specs.Measures.{
  MakespanIsGreatest,
  LoadIsLeast,
  PathIsGreatest,
  EarliestIsLeast,
  ArrivalIsGreatest,
  LargerIsGreatest,
  AppendIsLeast,
};

// Each theorem of the model is the promise of a function of its name.

// The test for a cycle decides it.
pub fn cycle_test_decides()
    ensures { CycleTestDecides }
{}

// Every feasible schedule completes the empty partial schedule.
pub fn feasible_completes_empty()
    ensures { FeasibleCompletesEmpty }
{}

// What completes a child completes its parent, under other names of machines.
pub fn child_completes_parent()
    ensures { ChildCompletesParent }
{}

// The choices are the free tasks on the used machines and on the lowest empty one, in this order.
pub fn choices_are()
    ensures which { ChoicesAre }
    ensures order { ChoicesInOrder }
{}

// Some child of a partial schedule that lacks a task has a completion no longer than a given one.
pub fn children_cover()
    ensures { ChildrenCover }
{}

// A complete partial schedule that is reachable is feasible.
pub fn complete_is_feasible()
    ensures { CompleteIsFeasible }
{}

// The makespan is some task's finish, and none is later.
pub fn makespan_is_greatest()
    ensures { MakespanIsGreatest }
{}

// Load is the least number that, times the number of machines, is at least all work and idle time.
pub fn load_is_least()
    ensures { LoadIsLeast }
{}

// Path is attained by some task and exceeded by none.
pub fn path_is_greatest()
    ensures { PathIsGreatest }
{}

// Earliest data is attained on some machine, and on none it is less.
pub fn earliest_is_least()
    ensures { EarliestIsLeast }
{}

// Arrival is attained by some free task and exceeded by none.
pub fn arrival_is_greatest()
    ensures { ArrivalIsGreatest }
{}

// The larger of two bounds is one of them, and neither is more.
pub fn larger_is_greatest()
    ensures { LargerIsGreatest }
{}

// Appending puts a task at the least start that is not before any arrival nor before the machine's finish.
pub fn append_is_least()
    ensures { AppendIsLeast }
{}
