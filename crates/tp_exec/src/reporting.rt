//! The report of a run after all messages have arrived.
ghost use Rattle.std.specs.Prelude.{◌≡◌, All, IfErr, IfOk, MatchOption};
ghost use Rattle.std.specs.List.{AllZip};
ghost use Rattle.tp_config.specs.Setup.{IsComponent};
ghost use Rattle.tp_report.specs.Reports.{IsReportable};
ghost use Rattle.tp_report.specs.Verdicts.{endings, locals, overall_verdict};
ghost use Rattle.tp_exec.specs.Delivery.{IsReportOf};
ghost use Rattle.tp_exec.specs.OneOrder.{HasOneOrder, IsInOneOrder, logs_of};
ghost use Rattle.tp_exec.specs.Reporting.{IsAtRest, IsRefusal, IsReportedAs, IsWithoutOrder};
ghost use Rattle.tp_exec.specs.Reporting.{end_as};
ghost use Rattle.tp_exec.specs.Settlings.{IsOfARun};

use crate::ended::EndedComponent;
use crate::fault::RunFault;
use crate::one_order::has_one_order;
use crate::waiting::are_at_rest;
use std::alloc::Global;
use tp_behaviour::outcome::Outcome;
use tp_common::memory::Memory;
use tp_config::config::Config;
use tp_inbox::ending::End;
use tp_play::test_case::TestCase;
use tp_report::report::{CompReport, Report};
use tp_report::verdicts::{local_verdict, overall_verdict};

fn end_of(outcome: &Outcome) -> End
    ensures { result ≡ end_as outcome.now }
{
    match outcome {
        Outcome::Done => End::Done,
        Outcome::Error(fault) => End::Error(*fault),
        Outcome::Waiting(_) => End::Waiting,
    }
}

fn report_component(
    alloc: Global,
    config: &Config,
    component: EndedComponent,
) -> Result<CompReport, Memory>
    requires { IsComponent config.now component.desk.comp }
    ensures { IfOk result (IsReportedAs config.now component) }
{
    let EndedComponent {
        desk,
        outcome,
        counts,
    } = component;
    let name = String::from_str(alloc, config.name(desk.comp()))?;
    let verdict = local_verdict(desk.log());
    Ok(CompReport {
        name,
        desk,
        ending: end_of(&outcome),
        verdict,
        counts,
    })
}

fn report_components(
    alloc: Global,
    config: &Config,
    components: Vec<EndedComponent>,
) -> Result<Vec<CompReport>, Memory>
    requires { All (λ e. IsComponent config.now e.desk.comp) components.items }
    ensures { IfOk result (λ reports.
        AllZip (IsReportedAs config.now) components.items reports.items) }
{
    let mut reports = Vec::with_capacity(alloc, components.len())?;
    for component in components {
        reports.push_reserved(report_component(alloc, config, component)?);
    }
    Ok(reports)
}

fn report_in_order(
    alloc: Global,
    config: &Config,
    components: Vec<EndedComponent>,
) -> Result<Option<Vec<CompReport>>, Memory>
    requires { All (λ e. IsComponent config.now e.desk.comp) components.items }
    ensures { IfOk result (λ made. MatchOption made (IsWithoutOrder components.items)
        (λ reports. AllZip (IsReportedAs config.now) components.items reports.items
        × HasOneOrder (logs_of reports.items))) }
{
    let reports = report_components(alloc, config, components)?;
    if has_one_order(alloc, reports.as_slice())? {
        Ok(Some(reports))
    } else {
        Ok(None)
    }
}

fn conclude(components: Vec<CompReport>) -> Report
    ensures components { result.components.items ≡ components.items }
    ensures result { result.result
        ≡ overall_verdict (endings components.items) (locals components.items) }
{
    let result = overall_verdict(components.as_slice());
    Report { components, result }
}

pub(crate) fn make_report(
    alloc: Global,
    test_case: &TestCase,
    ended: Vec<EndedComponent>,
) -> Result<Report, RunFault>
    requires { IsOfARun test_case.now ended.items }
    ensures report { IfOk result (IsReportOf test_case.now) }
    ensures one_order { IfOk result IsInOneOrder }
    ensures text { IfOk result (IsReportable test_case.now.config) }
    ensures rest { IfOk result (λ _. All IsAtRest ended.items) }
    ensures refusal { IfErr result (IsRefusal ended.items) }
{
    // For its clause: the configuration is lawful.
    let _lawful = test_case.components();
    if !are_at_rest(ended.as_slice()) {
        return Err(RunFault::Restless);
    }
    let Ok(reported) = report_in_order(alloc, test_case.config(), ended) else {
        return Err(RunFault::Memory);
    };
    let Some(components) = reported else {
        return Err(RunFault::NoOrder);
    };
    Ok(conclude(components))
}
