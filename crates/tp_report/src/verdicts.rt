//! The verdicts of a run.
ghost use Rattle.std.specs.Prelude.{◌≡◌, ◌∷◌, ◌++◌, [], List};
ghost use Rattle.tp_inbox.specs.declared.entry.Entry.{Entry};
ghost use Rattle.tp_report.specs.Verdicts.{endings, local_verdict, locals, overall_verdict};
ghost use Rattle.tp_report.specs.declared.report.CompReport.{CompReport};

use crate::report::CompReport;
use tp_inbox::ending::End;
use tp_inbox::entry::Entry;
use tp_value::verdict::Verdict;

/// The local verdict of a component after one more entry of its history (ES 201 873-1, 24.1, 24.2).
/// Before the first entry it is `None`.
pub fn verdict_after(verdict: Verdict, entry: &Entry) -> Verdict
    ensures { (before : List Entry) → verdict ≡ local_verdict before
        → result ≡ local_verdict (before ++ entry.now ∷ []) }
{
    match entry {
        Entry::Verdict(set) => verdict.join(*set),
        Entry::Failed(_) => Verdict::Error,
        _ => verdict,
    }
}

/// `Error` if the behaviour failed, else the worst verdict that it has set.
pub fn local_verdict(log: &[Entry]) -> Verdict
    ensures { result ≡ local_verdict log.now }
{
    let mut verdict = Verdict::None;
    for entry in log {
        verdict = verdict_after(verdict, entry);
    }
    verdict
}

fn overall_after(verdict: Verdict, component: &CompReport) -> Verdict
    ensures { (before : List CompReport)
        → verdict ≡ overall_verdict (endings before) (locals before)
        → let after = before ++ component.now ∷ [] in
        result ≡ overall_verdict (endings after) (locals after) }
{
    match component.ending {
        End::Waiting => Verdict::Error,
        End::Done | End::Error(_) => verdict.join(component.verdict),
    }
}

/// `Error` if a behaviour waits at the end, else the worst of the local verdicts (24.1).
pub fn overall_verdict(components: &[CompReport]) -> Verdict
    ensures { result ≡ overall_verdict (endings components.now) (locals components.now) }
{
    let mut verdict = Verdict::None;
    for component in components {
        verdict = overall_after(verdict, component);
    }
    verdict
}
