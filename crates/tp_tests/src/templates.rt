//! The definitions of templates, compared with the standard's rules: which values they match, and
//! which types they fit. Also their copies.
use crate::showing::{debug, says};
use crate::values::{LEVELS, deep_value, record_and_list, records, text};
use std::alloc::Global;
use std::process::Abort;
use tp_common::memory::Memory;
use tp_value::equal::are_equal;
use tp_value::fitting::template_fits;
use tp_value::items::Items;
use tp_value::matching::matches;
use tp_value::shared::Shared;
use tp_value::template::{PatternPart, Template};
use tp_value::types::{Ty, Types};
use tp_value::value::Value;

fn integers<R: AllocGlobal + Abort>(rt: &R, numbers: &[i64]) -> Value {
    let mut elements = Items::new(rt.alloc());
    for number in numbers {
        assert!(rt; elements.push(Value::Int(*number)).is_ok());
    }
    Value::List(Shared::new(rt.alloc(), elements).expect(rt, "memory"))
}

fn add_exactly(members: &mut Items<Template>, numbers: &[i64]) -> Result<(), Memory> {
    for number in numbers {
        members.push(Template::Exact(Value::Int(*number)))?;
    }
    Ok(())
}

fn exactly(alloc: Global, numbers: &[i64]) -> Result<Items<Template>, Memory> {
    let mut members = Items::new(alloc);
    match add_exactly(&mut members, numbers) {
        Ok(()) => Ok(members),
        Err(Memory) => {
            drop(members);
            Err(Memory)
        }
    }
}

fn pattern(alloc: Global, written: &[u8]) -> Result<Template, Memory> {
    let mut parts = Items::new(alloc);
    for character in written {
        parts.push(match *character {
            b'*' => PatternPart::AnyOrNone,
            b'?' => PatternPart::One,
            literal => PatternPart::Literal(literal),
        })?;
    }
    Ok(Template::Pattern(parts))
}

fn asks_one<R: Abort>(rt: &R, template: &Template, value: &Value, wanted: bool) {
    assert!(rt;
        matches(template, value) == wanted,
        "{template:?} on {value:?}"
    );
}

fn asks<R: AllocGlobal + Abort>(rt: &R, template: &Template, value: &Value, wanted: bool) {
    let twin = template.copy(rt.alloc()).expect(rt, "memory");
    let printed = debug(rt, template);
    says(rt, 0, debug(rt, &twin), printed.as_str());
    asks_one(rt, template, value, wanted);
    asks_one(rt, &twin, value, wanted);
    drop(twin);
}

fn asks_integers<R: AllocGlobal + Abort>(rt: &R, template: Template, table: &[(i64, bool)]) {
    for (number, wanted) in table {
        asks(rt, &template, &Value::Int(*number), *wanted);
    }
    drop(template);
}

#[test]
fn integers_match_lists_complements_and_ranges(rt: HostRuntime) {
    let list = exactly(rt.alloc(), &[1, 5]).expect(&rt, "memory");
    asks_integers(
        &rt,
        Template::OneOf(list),
        &[(5, true), (6, false), (i64::MIN, false)],
    );
    let list = exactly(rt.alloc(), &[1, 5]).expect(&rt, "memory");
    asks_integers(
        &rt,
        Template::NoneOf(list),
        &[(5, false), (6, true), (i64::MIN, true)],
    );
    let range = Template::Range(None, Some(5));
    asks_integers(&rt, range, &[(5, true), (6, false), (i64::MIN, true)]);
}

fn asks_pattern<R: AllocGlobal + Abort>(rt: &R, written: &str, characters: &str, wanted: bool) {
    let template = pattern(rt.alloc(), written.as_bytes()).expect(rt, "memory");
    let value = text(rt.alloc(), characters.as_bytes()).expect(rt, "memory");
    asks(rt, &template, &value, wanted);
    drop((template, value));
}

#[test]
fn charstrings_match_patterns(rt: HostRuntime) {
    const TABLE: &[(&str, &str, bool)] = &[
        ("a*b?", "abbb", true),
        ("a*b?", "ab", false),
        ("", "", true),
        ("", "a", false),
        ("?", "", false),
        ("?", "a", true),
        ("*", "", true),
    ];
    for (written, characters, wanted) in TABLE {
        asks_pattern(&rt, *written, *characters, *wanted);
    }
}

fn asks_list<R: AllocGlobal + Abort>(rt: &R, template: &Template, numbers: &[i64], wanted: bool) {
    let value = integers(rt, numbers);
    asks(rt, template, &value, wanted);
    drop(value);
}

fn asks_lists<R: AllocGlobal + Abort>(rt: &R, members: Vec<Template>, table: &[(&[i64], bool)]) {
    let template = Template::List(Items::from_vec(members));
    for (numbers, wanted) in table {
        asks_list(rt, &template, *numbers, *wanted);
    }
    drop(template);
}

#[test]
fn lists_match_any_number_of_elements(rt: HostRuntime) {
    let many = Vec::from_array(rt.alloc(), [Template::AnyOrNone]).expect(&rt, "memory");
    asks_lists(&rt, many, &[(&[], true)]);
    let any = Vec::from_array(rt.alloc(), [Template::Any]).expect(&rt, "memory");
    asks_lists(&rt, any, &[(&[], false), (&[4], true)]);
}

#[test]
fn lists_match_one_of_some_and_any_number(rt: HostRuntime) {
    let first = Template::OneOf(exactly(rt.alloc(), &[1, 2]).expect(&rt, "memory"));
    let members = Vec::from_array(rt.alloc(), [first, Template::AnyOrNone]);
    asks_lists(
        &rt,
        members.expect(&rt, "memory"),
        &[(&[2], true), (&[3, 1], false)],
    );
}

#[test]
fn lists_match_from_their_end(rt: HostRuntime) {
    let one = Template::Exact(Value::Int(1));
    let members = Vec::from_array(rt.alloc(), [Template::AnyOrNone, one, Template::Any]);
    asks_lists(
        &rt,
        members.expect(&rt, "memory"),
        &[(&[1, 1, 2], true), (&[1], false)],
    );
}

fn asks_fit<R: Abort>(rt: &R, types: &Types, ty: Ty, template: &Template, wanted: bool) {
    assert!(rt;
        template_fits(types, ty, template) == wanted,
        "{template:?}"
    );
}

fn asks_fits<R: Abort>(rt: &R, types: &Types, template: Template, table: &[(Ty, bool)]) {
    for (ty, wanted) in table {
        asks_fit(rt, types, *ty, &template, *wanted);
    }
    drop(template);
}

#[test]
fn plain_templates_fit_their_types(rt: HostRuntime) {
    let types = record_and_list(&rt);
    let one_value = Template::Range(Some(5), Some(5));
    asks_fits(
        &rt,
        &types,
        one_value,
        &[(Ty::Integer, true), (Ty::Boolean, false)],
    );
    asks_fits(
        &rt,
        &types,
        Template::Range(Some(6), Some(5)),
        &[(Ty::Integer, false)],
    );
    asks_fits(&rt, &types, Template::AnyOrNone, &[(Ty::Integer, false)]);
    let list = Template::NoneOf(exactly(rt.alloc(), &[1, 5]).expect(&rt, "memory"));
    asks_fits(
        &rt,
        &types,
        list,
        &[(Ty::Integer, true), (Ty::Charstring, false)],
    );
    let letters = pattern(rt.alloc(), b"a*").expect(&rt, "memory");
    asks_fits(&rt, &types, letters, &[(Ty::Charstring, true)]);
    drop(types);
}

#[test]
fn templates_in_braces_fit_their_types(rt: HostRuntime) {
    let types = record_and_list(&rt);
    let exact = Template::Exact(records(rt.alloc()).expect(&rt, "memory"));
    asks_fits(&rt, &types, exact, &[(Ty::Named(1), true)]);
    let pair = Vec::from_array(rt.alloc(), [Template::AnyOrNone, Template::Any]);
    let list = Template::List(Items::from_vec(pair.expect(&rt, "memory")));
    asks_fits(
        &rt,
        &types,
        list,
        &[(Ty::Named(1), true), (Ty::Named(0), false)],
    );
    let one = Vec::from_array(rt.alloc(), [Template::Any]).expect(&rt, "memory");
    let fields = Template::Record(Items::from_vec(one));
    asks_fits(&rt, &types, fields, &[(Ty::Named(0), false)]);
    drop(types);
}

fn list_of<R: AllocGlobal + Abort>(rt: &R, template: Template) -> Template {
    let members = Vec::from_array(rt.alloc(), [template]).expect(rt, "memory");
    Template::List(Items::from_vec(members))
}

#[test]
fn deep_templates_fit_the_stack(rt: HostRuntime) {
    let value = deep_value(rt.alloc()).expect(&rt, "memory");
    let mut template = Template::List(Items::new(rt.alloc()));
    for _ in 0..LEVELS {
        template = list_of(&rt, template);
    }
    let twin = template.copy(rt.alloc()).expect(&rt, "memory");
    assert!(rt; matches(&twin, &value));
    drop((value, template, twin));
}

fn add_kinds(alloc: Global, members: &mut Items<Template>) -> Result<(), Memory> {
    members.push(Template::OneOf(exactly(alloc, &[1, 2])?))?;
    members.push(Template::NoneOf(exactly(alloc, &[3])?))?;
    members.push(pattern(alloc, b"a*b?")?)?;
    members.push(Template::Exact(records(alloc)?))?;
    members.push(Template::Record(exactly(alloc, &[4])?))?;
    members.push(Template::AnyOrNone)?;
    members.push(Template::Range(Some(-1), None))
}

fn nested(alloc: Global) -> Result<Template, Memory> {
    let mut members = Items::new(alloc);
    match add_kinds(alloc, &mut members) {
        Ok(()) => Ok(Template::List(members)),
        Err(Memory) => {
            drop(members);
            Err(Memory)
        }
    }
}

fn print_alike(alloc: Global, one: &Template, other: &Template) -> Result<bool, Memory> {
    let one = format!(in alloc; "{one:?}")?;
    let other = format!(in alloc; "{other:?}")?;
    Ok(one == other)
}

#[test]
fn refused_memory_leaves_copies_of_values_whole(rt: HostRuntime) {
    let value = match records(rt.alloc()) {
        Ok(value) => value,
        Err(Memory) => records(rt.alloc()).expect(&rt, "memory"),
    };
    let twin = value.copy(rt.alloc()).expect(&rt, "no memory is needed");
    assert!(rt; are_equal(&value, &twin));
    drop((value, twin));
}

#[test]
fn refused_memory_leaves_copies_whole(rt: HostRuntime) {
    let template = match nested(rt.alloc()) {
        Ok(template) => template,
        Err(Memory) => nested(rt.alloc()).expect(&rt, "memory"),
    };
    let twin = match template.copy(rt.alloc()) {
        Ok(twin) => twin,
        Err(Memory) => template.copy(rt.alloc()).expect(&rt, "memory"),
    };
    let alike = match print_alike(rt.alloc(), &template, &twin) {
        Ok(alike) => alike,
        Err(Memory) => print_alike(rt.alloc(), &template, &twin).expect(&rt, "memory"),
    };
    assert!(rt; alike);
    drop((template, twin));
}
