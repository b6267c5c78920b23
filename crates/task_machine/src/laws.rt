ghost use Rattle.task_machine.specs.Laws.{FinishedStays, GoodWins, IsReadyAgain};
ghost use Rattle.task_machine.specs.Laws.{LateChangesNothing, OthersAreRetried, ThirdFaultSpends};

/// When which verdict is given, and what the task is then.
pub fn verdicts_mean()
    ensures late { LateChangesNothing }
    ensures good { GoodWins }
    ensures third { ThirdFaultSpends }
    ensures others { OthersAreRetried }
    ensures again { IsReadyAgain }
{}

/// A finished task stays as it is.
pub fn finished_stays()
    ensures { FinishedStays }
{}
