//! The calls of `tp_script` and of `tp_exec`: a script is read, checked, run and reported.
use std::process::Abort;
use std::sync::Wait;
use std::thread::Threads;
use tp_config::port_type::CompId;
use tp_exec::gate::{Gate, OpenGate};
use tp_exec::run::run;
use tp_exec::{CompReport, End, Report, RunFault, Telling, Verdict, write_report};
use tp_port::Watched;
use tp_script::{
    Module, RecvMsg, ScriptFault, SendMsg, SendValue, TestCase, check, fill_message, fill_template,
    lex, parse,
};
use tp_value::types::Ty;

/// A test case whose only component sends to itself.
const SCRIPT: &[u8] = b"module M {
type port P message { inout integer; }
type component C { port P p, q; }
testcase t() runs on C {
connect(self:p, self:q);
p.send(integer:5);
q.receive(integer:?);
setverdict(pass);
}
}
";

const REPORT: &[u8] = b"component mtc
sent mtc.q 0 integer:5
took q mtc 0 integer:5
set pass
end done
verdict pass
result pass
";

fn test_case<R: AllocGlobal + Abort>(rt: &R) -> TestCase {
    let module: Module = parse(rt.alloc(), SCRIPT).ok().expect(rt, "a module");
    let test_case = check(rt.alloc(), &module).ok().expect(rt, "a test case");
    drop(module);
    test_case
}

#[test]
fn accepted_script(rt: HostRuntime) {
    let tokens = lex(rt.alloc(), SCRIPT).ok().expect(&rt, "tokens");
    assert!(rt; tokens.len() > 0);
    let test_case = test_case(&rt);
    assert!(rt; test_case.components() == 1 && test_case.config().len() == 1);
    assert!(rt; test_case.types().len() == 0);
    assert!(rt; test_case.body(test_case.mtc()).is_some());
    drop((tokens, test_case));
}

#[test]
fn refused_script(rt: HostRuntime) {
    let refused: Result<Module, ScriptFault> = parse(rt.alloc(), b"module");
    assert!(rt; refused.is_err());
}

#[test]
#[tactic(auto, using(crate::proofs::NeededByIntegers::needed_int))]
fn filled(rt: HostRuntime) {
    let sent = SendMsg {
        ty: Ty::Integer,
        value: SendValue::Int(5),
    };
    assert!(rt; fill_message(rt.alloc(), &sent, [].as_slice()).is_ok());
    let wanted = RecvMsg::Any;
    assert!(rt; fill_template(rt.alloc(), &wanted, [].as_slice()).is_ok());
    drop((sent, wanted));
}

/// Runs the test case with this gate, and writes its report.
fn reports<R: AllocGlobal + Abort + Threads + Wait + Sync, G: Gate>(rt: &R, gate: &G) {
    let test_case = test_case(rt);
    let ran: Result<Report, RunFault> = run(rt, rt.alloc(), &test_case, gate);
    let report = ran.ok().expect(rt, "a report");
    assert!(rt; report.result == Verdict::Pass && report.components.len() == 1);
    let mtc: &CompReport = &report.components[0];
    assert!(rt; matches!(mtc.ending, End::Done));
    let mut printed = Watched::new(Vec::new(rt.alloc()));
    write_report(&test_case, Telling::Report, &report, &mut printed);
    assert!(rt; printed.into_inner().as_slice() == REPORT);
    drop((test_case, report));
}

#[test]
fn reported(rt: HostRuntime) {
    OpenGate.before(CompId(0), 0);
    OpenGate.inside(CompId(0), 0);
    reports(&rt, &OpenGate);
}

#[test]
fn verdicts(rt: HostRuntime) {
    assert!(rt; Verdict::Fail.set(Verdict::Pass) == Verdict::Fail);
    assert!(rt; Verdict::None.join(Verdict::Error) == Verdict::Error);
}
