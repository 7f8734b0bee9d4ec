// The questions, by their numbers, each named by what a no of it says.
ghost use Rattle.std.specs.Prelude.{◌≡◌};
ghost use Rattle.task.specs.Verdict.{number};

#[derive(Clone, Copy, Debug, PartialEq, Eq)]
pub enum Question {
    // A task file: a record's head or body is cut off.
    TaskRecordCut = 1,
    // A record of this kind may not stand here.
    TaskRecordKind = 2,
    // The record's length is not its kind's.
    TaskRecordLength = 3,
    // There are more than 64 actions or 32 cases.
    TaskTooMany = 4,
    // A bound is out of its range.
    TaskBounds = 5,
    // A set has a fact beyond the task's, or a pair names a fact twice.
    TaskFacts = 6,
    // No such procedure or line, or an instruction that is empty or not allowed there.
    TaskPreset = 7,
    // The line is preset twice.
    TaskPresetTwice = 8,
    // Something follows the closing record.
    TaskNotEnded = 9,
    // The checker: the buffer has no room for the program.
    ProgramNoRoom = 10,
    // A plan: a record's head or body is cut off.
    PlanRecordCut = 11,
    // The record is neither a step nor the closing record.
    PlanRecordKind = 12,
    // The record's length is not its kind's.
    PlanRecordLength = 13,
    // A step: as many as the task allows are made already.
    StepBound = 14,
    // No such procedure or line, or an instruction that is empty or not allowed there.
    StepInstruction = 15,
    // All cases are finished already.
    StepAfterFinish = 16,
    // The step is not at the line where the run is.
    StepElsewhere = 17,
    // A write of a line that is not empty, or a repeat of what the line does not hold.
    StepLine = 18,
    // An instruction: the action's precondition does not hold.
    Precondition = 19,
    // Never answered: a fact that is both raised and lowered is true.
    Clash = 20,
    // The call stack is full.
    StackFull = 21,
    // The case ends, and its goal does not hold.
    Goal = 22,
    // The closing record of a plan: some case is not finished.
    CaseOpen = 23,
    // Something follows it.
    PlanNotEnded = 24,
    // A program: it has not exactly three bytes for each line.
    ProgramLength = 25,
    // An instruction is not allowed on its line.
    ProgramInstruction = 26,
    // A preset line does not hold its preset.
    ProgramPreset = 27,
    // A program that is run: its run is at an empty line.
    LineEmpty = 28,
    // The writer: the buffer has no room for the plan.
    PlanNoRoom = 29,
    // A file has more than 65,536 bytes.
    FileTooLong = 30,
    // A run record cannot be a position of the task.
    RunImpossible = 31,
    // A late case: the run is finished.
    RunFinished = 32,
    // There are 32 cases already.
    CasesFull = 33,
    // The buffer has no room for the case.
    CaseNoRoom = 34,
}

impl Question {
    // The question's number.
    pub fn number(self) -> u8
        ensures { result ≡ number self }
    {
        self as u8
    }
}
