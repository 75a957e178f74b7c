// The laws of what a trace tells, over definitions alone. There is nothing to run.
ghost use Rattle.report.specs.TraceLaws.{EpochSetsAreTheOneRisingList, LogsHaveTheProgramsTrace};

/// The epochs and sets of runs are the one list that rises strictly and has them.
pub fn epoch_sets_are_the_one_rising_list()
    ensures { EpochSetsAreTheOneRisingList }
{}

/// Logs of lanes that ran what a program sent to them have the program's trace, whatever the number
/// of delegates.
pub fn logs_have_the_programs_trace()
    ensures { LogsHaveTheProgramsTrace }
{}
