// The laws of shown paths: each function's contract is one of them.
ghost use Rattle.ctl.specs.PathLaws.{ShownPathsFollowWays, ShownPathsBearOutTheirAnswers, ShownPathsAreShortest, ShownPathsFitTheChart, ShownPathsTakeFirstWays, PathsProveWhatTheyBearOut, TheCounterShowsItsPaths};

// A shown path starts at the mode, follows ways, and stays within the chart.
pub fn shown_paths_follow_ways()
    ensures { ShownPathsFollowWays }
{}

// A shown path bears its answer out, with the operands read over unending runs.
pub fn shown_paths_bear_out_their_answers()
    ensures { ShownPathsBearOutTheirAnswers }
{}

// Of all paths that reach the right operand, the one shown has the fewest modes.
pub fn shown_paths_are_shortest()
    ensures { ShownPathsAreShortest }
{}

// A path that reaches or stays has no more modes than the chart; a step has two.
pub fn shown_paths_fit_the_chart()
    ensures { ShownPathsFitTheChart }
{}

// Which path is shown: each step is the first way out, in order, that serves.
pub fn shown_paths_take_first_ways()
    ensures { ShownPathsTakeFirstWays }
{}

// Where a path that bears an answer out leads from a mode, the line has that answer over unending runs.
pub fn paths_prove_what_they_bear_out()
    ensures { PathsProveWhatTheyBearOut }
{}

// The counter of four modes, worked: a path to the last mode, a return to the first, a step to it.
pub fn the_counter_shows_its_paths()
    ensures { TheCounterShowsItsPaths }
{}
