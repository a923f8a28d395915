//! Laws: a valid text is accepted, and has one test case. Each is the contract of a function that
//! does nothing.
ghost use Rattle.tp_script.specs.Accepted.{ScriptsAreAccepted, ScriptsHaveOneTestCase};

/// A text that is read as a module that obeys the rules is refused only if memory runs out. So, by
/// the contract of [`read_script`](crate::reading::read_script), unless memory runs out a text is
/// accepted if and only if it is a module of the grammar, within the limits, that obeys every rule.
pub fn scripts_are_accepted()
    ensures { ScriptsAreAccepted }
{}

/// A text is a script of one test case. So what [`read_script`](crate::reading::read_script)
/// promises of the test case that it returns holds for every test case of the text.
pub fn scripts_have_one_test_case()
    ensures { ScriptsHaveOneTestCase }
{}
