//! The text of a report, and its trace.
ghost use Rattle.std.specs.Prelude.{All};
ghost use Rattle.std.specs.List.{flat_map};
ghost use Rattle.tp_common.specs.Watching.{Writes};
ghost use Rattle.tp_report.specs.LineOpenings.{HaveTheirTexts};
ghost use Rattle.tp_report.specs.Reports.{IsPresent, IsReportable, component_text, told_text};

use crate::entry_texts::write_entries;
use crate::left::write_left;
use crate::lines::{write_end, write_heading, write_verdict};
use crate::opening::KeptOpenings;
use crate::report::{CompReport, Report};
use crate::telling::Telling;
use std::io::Write;
use tp_common::watched::Watched;
use tp_play::test_case::TestCase;

fn write_component<W: Write>(
    test_case: &TestCase,
    telling: Telling,
    component: &CompReport,
    kept: &mut KeptOpenings,
    out: &mut Watched<W>,
)
    requires present { IsPresent test_case.now.config component.now }
    requires kept { HaveTheirTexts test_case.now.config kept.old }
    ensures written { Writes W.contents out.old out.new
        (component_text telling test_case.now component.now) }
    ensures kept { HaveTheirTexts test_case.now.config kept.new }
{
    let comp = component.desk.comp();
    write_heading(test_case, comp, out);
    write_entries(test_case, telling, comp, component.desk.log(), kept, out);
    write_end(component.ending, out);
    write_verdict(b"verdict ", component.verdict, out);
    write_left(test_case, &component.desk, kept, out)
}

fn write_components<W: Write>(
    test_case: &TestCase,
    telling: Telling,
    components: &[CompReport],
    out: &mut Watched<W>,
)
    requires { All (IsPresent test_case.now.config) components.now }
    ensures { Writes W.contents out.old out.new
        (flat_map (component_text telling test_case.now) components.now) }
{
    let mut kept = KeptOpenings::new();
    for component in components {
        write_component(test_case, telling, component, &mut kept, out);
    }
}

/// Writes a report of this test case, or its trace, which also has a line for each arrival. A
/// message is its type and its value, or `-` if the value doesn't have the type. The components,
/// ports and senders of the report are those of the configuration. If the writer fails, it has
/// written a front of the text.
pub fn write_report<W: Write>(
    test_case: &TestCase,
    telling: Telling,
    report: &Report,
    out: &mut Watched<W>,
)
    requires { IsReportable test_case.now.config report.now }
    ensures { Writes W.contents out.old out.new (told_text telling test_case.now report.now) }
{
    write_components(test_case, telling, report.components.as_slice(), out);
    write_verdict(b"result ", report.result, out)
}
