//! Laws of the definitions, the contracts of functions that do nothing.
ghost use Rattle.yaml_json.specs.Faults.{FaultsAreBad};
ghost use Rattle.yaml_json.specs.Places.{ExpectedIsPossible};
ghost use Rattle.yaml_json.specs.Refused.{FaultsDiffer};

/// States that no text has two of these faults: it breaks off, it opens too many arrays and objects, it gives a name twice.
/// So `NotJson`, `TooDeep` and `DuplicateName` exclude each other.
pub fn faults_differ()
    ensures { FaultsDiffer }
{}

/// States that the input that `NotJson` names, where it names no fault, is each kind of lexeme with which some JSON value goes on at that
/// place, or the text's end if a value is whole there, and no other.
pub fn expected_is_possible()
    ensures { ExpectedIsPossible }
{}

/// States that a string has a fault exactly if no string is read there, and that no number with a fault is read.
pub fn faults_are_bad()
    ensures { FaultsAreBad }
{}
