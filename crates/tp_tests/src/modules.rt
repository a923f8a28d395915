//! The modules that texts are read as: which parts they have, on which lines, and which of them end
//! with a `;`. `!` stands after a part with its `;`.
use crate::showing::{display, says};
use std::process::Abort;
use tp_script::{Module, parse};
use tp_tree::tree::{AllDone, Defined, Function, TestCase};

fn shown<R: AllocGlobal + Abort>(rt: &R, text: &[u8]) -> String {
    match parse(rt.alloc(), text) {
        Ok(module) => shown_module(rt, module),
        Err(fault) => display(rt, fault),
    }
}

fn shown_module<R: AllocGlobal + Abort>(rt: &R, module: Module) -> String {
    let mut out = String::new(rt.alloc());
    let line = module.line;
    let end = mark(module.has_semicolon);
    write!(out, "{line} module{end}").expect(rt, "memory");
    for definition in module.definitions.as_slice() {
        let line = definition.line;
        let end = mark(definition.has_semicolon);
        write!(out, ", {line} ").expect(rt, "memory");
        show_defined(rt, &mut out, &definition.defined);
        write!(out, "{end}").expect(rt, "memory");
    }
    drop(module);
    out
}

fn mark(has_semicolon: bool) -> &'static str {
    if has_semicolon { "!" } else { "" }
}

fn show_defined<R: AllocGlobal + Abort>(rt: &R, out: &mut String, defined: &Defined) {
    match defined {
        Defined::Record(_) => write!(out, "record").expect(rt, "memory"),
        Defined::List(_) => write!(out, "list").expect(rt, "memory"),
        Defined::Port(_) => write!(out, "port").expect(rt, "memory"),
        Defined::Component(_) => write!(out, "component").expect(rt, "memory"),
        Defined::Function(function) => show_function(rt, out, function),
        Defined::TestCase(case) => show_test_case(rt, out, case),
    }
}

fn show_function<R: AllocGlobal + Abort>(rt: &R, out: &mut String, function: &Function) {
    let variables = function.variables.len();
    let statements = function.statements.len();
    write!(out, "function of {variables} {statements}").expect(rt, "memory");
}

fn show_test_case<R: AllocGlobal + Abort>(rt: &R, out: &mut String, case: &TestCase) {
    let setups = case.setups.len();
    let starts = case.starts.len();
    let variables = case.variables.len();
    let statements = case.statements.len();
    write!(out, "case of {setups} {starts} {variables} {statements}").expect(rt, "memory");
    if let Some(all_done) = &case.all_done {
        show_all_done(rt, out, all_done);
    }
}

fn show_all_done<R: AllocGlobal + Abort>(rt: &R, out: &mut String, all_done: &AllDone) {
    let line = all_done.line;
    let end = mark(all_done.has_semicolon);
    write!(out, ", {line} done{end}").expect(rt, "memory");
}

fn check<R: AllocGlobal + Abort>(rt: &R, table: &[(&[u8], &str)]) {
    for (place, (text, want)) in table.iter().enumerate() {
        says(rt, place, shown(rt, *text), *want);
    }
}

#[test]
fn definitions(rt: HostRuntime) {
    check(
        &rt,
        &[
            (b"module M { }", "1 module"),
            (b"\nmodule M { };", "2 module!"),
            (
                b"module M {\ntype record R { integer a, R b }\ntype record of R L;\n\
                  type port P message { in R; out L, integer }\n;\ntype component C { port P p, q }\n}",
                "1 module, 2 record, 3 list!, 4 port!, 6 component",
            ),
            (
                b"module M { function f(C a, C b) runs on C { var R r; p.send(r) };\n\
                  testcase t() runs on C { } function g() runs on C { } }",
                "1 module, 1 function of 1 1!, 2 case of 0 0 0 0, 2 function of 0 0",
            ),
            (b"module M {\ntype record of R L }", "1 module, 2 list"),
        ],
    );
}

#[test]
fn parts_of_test_cases(rt: HostRuntime) {
    check(
        &rt,
        &[
            (
                b"module M { testcase t() runs on C system S { connect(self:p, system:q);
                  var C a := C.create; map(a:p, mtc:q); a.start(f(mtc, self, a)); b.start(g());
                  var integer x; var C y; p.start; p.send(x) to all component; all port.clear;
                  alt { [] p.check(receive); [else] { } } setverdict(pass);
                  all component.done; } }",
                "1 module, 1 case of 3 2 2 5, 5 done!",
            ),
            // A `var` of two names is a variable, unless `:=` follows.
            (
                b"module M { testcase t() runs on C { var C a; } }",
                "1 module, 1 case of 0 0 1 0",
            ),
            (
                b"module M { testcase t() runs on C { var C a := C.create } }",
                "1 module, 1 case of 1 0 0 0",
            ),
            // A `start` of a name starts a port, unless `(` follows.
            (
                b"module M { testcase t() runs on C { n.start } }",
                "1 module, 1 case of 0 0 0 1",
            ),
            (
                b"module M { testcase t() runs on C { n.start(f()) } }",
                "1 module, 1 case of 0 1 0 0",
            ),
            (
                b"module M { testcase t() runs on C {\nall component\n.done } }",
                "1 module, 1 case of 0 0 0 0, 2 done",
            ),
        ],
    );
}

/// Each part of a test case's body excludes those that come before it.
#[test]
fn parts_out_of_order(rt: HostRuntime) {
    check(
        &rt,
        &[
            (
                b"module M { testcase t() runs on C { n.start; n.start\n(f()) } }",
                "refused 10 Syntax line 2",
            ),
            (
                b"module M { testcase t() runs on C { var integer x; n.start\n(f()) } }",
                "refused 10 Syntax line 2",
            ),
            (
                b"module M { testcase t() runs on C { var integer x; var C a\n:= C.create } }",
                "refused 10 Syntax line 2",
            ),
            (
                b"module M { testcase t() runs on C { n.start(f());\nconnect(a:p, b:q) } }",
                "refused 10 Syntax line 2",
            ),
            (
                b"module M { testcase t() runs on C { all component.done;\np.stop } }",
                "refused 10 Syntax line 2",
            ),
            (
                b"module M { function f() runs on C { p.stop;\nvar integer x } }",
                "refused 10 Syntax line 2",
            ),
            (
                b"module M { function f() runs on C { all\ncomponent.done } }",
                "refused 10 Syntax line 2",
            ),
        ],
    );
}
