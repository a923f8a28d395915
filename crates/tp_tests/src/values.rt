//! The definitions of types, values and verdicts, compared with the standard's rules, and each
//! public call.
use crate::writers::Short;
use std::alloc::Global;
use std::process::Abort;
use tp_common::event::{Env, TriggerAnswer};
use tp_common::memory::Memory;
use tp_common::watched::Watched;
use tp_port::port_queue::PortQueue;
use tp_value::equal::are_equal;
use tp_value::items::Items;
use tp_value::message::{Message, MsgTemplate};
use tp_value::shared::Shared;
use tp_value::template::Template;
use tp_value::types::{AddFault, Field, Ty, TypeDef, Types};
use tp_value::typing::has_type;
use tp_value::value::Value;
use tp_value::verdict::Verdict;
use tp_value::writing::write_value;

pub fn text(alloc: Global, characters: &[u8]) -> Result<Value, Memory> {
    Ok(Value::Text(Shared::from_slice(alloc, characters)?))
}

fn name<R: AllocGlobal + Abort>(rt: &R, characters: &str) -> String {
    String::from_str(rt.alloc(), characters).expect(rt, "memory")
}

fn field(alloc: Global, name: &[u8], ty: Ty) -> Result<Field, Memory> {
    let name = Items::from_slice(alloc, name)?;
    Ok(Field { name, ty })
}

fn record_type(alloc: Global) -> Result<TypeDef, Memory> {
    let id = field(alloc, b"id", Ty::Integer)?;
    let tag = field(alloc, b"tag", Ty::Charstring)?;
    let fields = Vec::from_array(alloc, [id, tag])?;
    Ok(TypeDef::Record(Items::from_vec(fields)))
}

/// The record type under the name R, and `type record of R L`.
pub fn record_and_list<R: AllocGlobal + Abort>(rt: &R) -> Types {
    let mut types = Types::new(rt.alloc());
    assert!(rt; types.len() == 0);
    let record = record_type(rt.alloc()).expect(rt, "memory");
    assert!(rt; types.add(name(rt, "R"), record) == Ok(0));
    assert!(rt; types.len() == 1);
    assert!(rt; types.add(name(rt, "L"), TypeDef::ListOf(Ty::Named(0))) == Ok(1));
    types
}

fn record(alloc: Global, id: i64, tag: &[u8]) -> Result<Value, Memory> {
    let tag = text(alloc, tag)?;
    let fields = Vec::from_array(alloc, [Value::Int(id), tag])?;
    Ok(Value::Record(Shared::new(alloc, Items::from_vec(fields))?))
}

pub fn records(alloc: Global) -> Result<Value, Memory> {
    let first = record(alloc, -5, b"a\"b")?;
    let second = record(alloc, 0, b"")?;
    let elements = Vec::from_array(alloc, [first, second])?;
    Ok(Value::List(Shared::new(alloc, Items::from_vec(elements))?))
}

const WRITTEN: &str = "{{id := -5, tag := \"a\"\"b\"}, {id := 0, tag := \"\"}}";

#[test]
fn types_have_the_numbers_in_which_they_came(rt: HostRuntime) {
    let mut types = record_and_list(&rt);
    assert!(rt; types.len() == 2);
    let again = types.add(name(&rt, "R"), TypeDef::ListOf(Ty::Integer));
    assert!(rt; again == Err(AddFault::Duplicate));
    assert!(rt; types.len() == 2);
    assert!(rt; types.find("R") == Some(0));
    assert!(rt; types.find("L") == Some(1));
    assert!(rt; types.find("r").is_none());
    assert!(rt; types.name(1) == Some("L"));
    assert!(rt; types.definition(Ty::Integer).is_none());
    drop(types);
}

#[test]
fn values_equal_their_copies(rt: HostRuntime) {
    let types = record_and_list(&rt);
    let value = records(rt.alloc()).expect(&rt, "memory");
    assert!(rt; has_type(&types, Ty::Named(1), &value));
    assert!(rt; !has_type(&types, Ty::Named(0), &value));
    let twin = value.copy(rt.alloc()).expect(&rt, "memory");
    assert!(rt; are_equal(&value, &twin));
    let other = record(rt.alloc(), 0, b"").expect(&rt, "memory");
    assert!(rt; !are_equal(&value, &other));
    drop((types, value, twin, other));
}

pub fn writes<R: AllocGlobal + Abort>(rt: &R, types: &Types, ty: Ty, value: &Value, wanted: &str) {
    let mut out = Watched::new(Vec::new(rt.alloc()));
    assert!(rt; has_type(types, ty, value), "{value:?}");
    write_value(types, ty, value, &mut out);
    assert!(rt; !out.has_failed());
    assert_eq!(rt; out.into_inner().as_slice(), wanted.as_bytes());
}

#[test]
fn values_are_written(rt: HostRuntime) {
    let types = record_and_list(&rt);
    writes(&rt, &types, Ty::Boolean, &Value::Bool(true), "true");
    writes(&rt, &types, Ty::Boolean, &Value::Bool(false), "false");
    let least = Value::Int(i64::MIN);
    writes(&rt, &types, Ty::Integer, &least, "-9223372036854775808");
    drop((types, least));
}

#[test]
fn lists_are_written(rt: HostRuntime) {
    let types = record_and_list(&rt);
    let items = Shared::new(rt.alloc(), Items::new(rt.alloc())).expect(&rt, "memory");
    let none = Value::List(items);
    writes(&rt, &types, Ty::Named(1), &none, "{}");
    let value = records(rt.alloc()).expect(&rt, "memory");
    writes(&rt, &types, Ty::Named(1), &value, WRITTEN);
    drop((types, none, value));
}

fn is_written(types: &Types, value: &Value, room: usize) -> bool {
    let mut short = Watched::new(Short { room });
    write_value(types, Ty::Named(1), value, &mut short);
    !short.has_failed()
}

#[test]
fn a_failed_write_is_told(rt: HostRuntime) {
    let types = record_and_list(&rt);
    let value = records(rt.alloc()).expect(&rt, "memory");
    for room in 0..WRITTEN.len() {
        assert!(rt; !is_written(&types, &value, room));
    }
    assert!(rt; is_written(&types, &value, WRITTEN.len()));
    drop((types, value));
}

fn two_messages<R: AllocGlobal + Abort>(rt: &R) -> PortQueue<Message> {
    let mut queue = PortQueue::new(rt.alloc());
    let value = text(rt.alloc(), b"ab").expect(rt, "memory");
    for (number, ty, value) in [(0, Ty::Integer, Value::Int(5)), (1, Ty::Charstring, value)] {
        let env = Env {
            sender: 0,
            number,
            msg: Message { ty, value },
        };
        assert!(rt; queue.arrive(env).is_ok());
    }
    queue
}

fn number_of(answer: Result<Option<Env<Message>>, Memory>) -> Result<Option<u64>, Memory> {
    match answer {
        Ok(Some(env)) => Ok(Some(env.number)),
        Ok(None) => Ok(None),
        Err(Memory) => Err(Memory),
    }
}

fn dropped(answer: Result<TriggerAnswer<Message>, Memory>) -> Option<u64> {
    match answer {
        Ok(TriggerAnswer::Dropped(env)) => Some(env.number),
        Ok(_) | Err(Memory) => None,
    }
}

fn found(queue: &mut PortQueue<Message>) -> Option<u64> {
    match queue.check(&MsgTemplate::Any, None) {
        Ok(Some(env)) => Some(env.number),
        Ok(None) | Err(Memory) => None,
    }
}

#[test]
fn a_port_queue_holds_messages_of_two_types(rt: HostRuntime) {
    let any = MsgTemplate::Any;
    let integer = MsgTemplate::Of(Ty::Integer, Template::Any);
    let mut queue = two_messages(&rt);
    assert!(rt; number_of(queue.receive(&integer, Some(1))) == Ok(None));
    assert!(rt; number_of(queue.receive(&integer, Some(0))) == Ok(Some(0)));
    assert!(rt; found(&mut queue) == Some(1));
    assert!(rt; dropped(queue.trigger(&integer, None)) == Some(1));
    assert!(rt; number_of(queue.receive(&any, None)) == Ok(None));
    drop((any, integer, queue));
}

const VERDICTS: &[Verdict] = &[
    Verdict::None,
    Verdict::Pass,
    Verdict::Inconc,
    Verdict::Fail,
    Verdict::Error,
];

fn gets_no_better<R: Abort>(rt: &R, place: usize, verdict: Verdict) {
    for (other_place, other) in VERDICTS.iter().enumerate() {
        let worst = if place < other_place { *other } else { verdict };
        assert!(rt; verdict.join(*other) == worst);
        if *other != Verdict::Error {
            assert!(rt; verdict.set(*other) == worst);
        }
    }
}

#[test]
fn verdicts_never_get_better(rt: HostRuntime) {
    for (place, verdict) in VERDICTS.iter().enumerate() {
        gets_no_better(&rt, place, *verdict);
    }
}

/// The levels of nesting in the tests of depth: far more than a script's 32.
pub const LEVELS: u32 = 2_000;

/// `{{..{}..}}`.
pub fn deep_value(alloc: Global) -> Result<Value, Memory> {
    let mut value = Value::List(Shared::new(alloc, Items::new(alloc))?);
    for _ in 0..LEVELS {
        let mut elements = Items::new(alloc);
        elements.push(value)?;
        value = Value::List(Shared::new(alloc, elements)?);
    }
    Ok(value)
}

fn written_length<R: AllocGlobal + Abort>(rt: &R, types: &Types, value: &Value) -> usize {
    let mut out = Watched::new(Vec::new(rt.alloc()));
    write_value(types, Ty::Named(0), value, &mut out);
    out.into_inner().len()
}

#[test]
fn deep_values_fit_the_stack(rt: HostRuntime) {
    let mut types = Types::new(rt.alloc());
    assert!(rt; types.len() == 0);
    assert!(rt; types.add(name(&rt, "D"), TypeDef::ListOf(Ty::Named(0))) == Ok(0));
    let value = deep_value(rt.alloc()).expect(&rt, "memory");
    assert!(rt; has_type(&types, Ty::Named(0), &value));
    let twin = value.copy(rt.alloc()).expect(&rt, "memory");
    assert!(rt; are_equal(&value, &twin));
    assert!(rt; written_length(&rt, &types, &twin) == 2 * (LEVELS as usize + 1));
    drop((types, value, twin));
}

fn add_record(alloc: Global, types: &mut Types, text: &str) -> Result<u32, AddFault> {
    let (Ok(name), Ok(definition)) = (String::from_str(alloc, text), record_type(alloc)) else {
        return Err(AddFault::Memory);
    };
    if types.len() > 5 {
        return Err(AddFault::Memory);
    }
    types.add(name, definition)
}

/// Asserts that a refusal to add a type is for memory and leaves it out, and that the same call
/// then adds it with this number.
fn adds_in_the_end<R: AllocGlobal + Abort>(rt: &R, types: &mut Types, text: &str, number: u16) {
    match add_record(rt.alloc(), types, text) {
        Ok(added) => assert!(rt; added == u32::from(number)),
        Err(fault) => {
            assert!(rt; fault == AddFault::Memory);
            assert!(rt; types.len() == usize::from(number));
            assert!(rt; types.find(text).is_none());
            assert!(rt; add_record(rt.alloc(), types, text).is_ok());
        }
    }
    assert!(rt; types.len() == usize::from(number) + 1);
    assert!(rt; types.find(text) == Some(u32::from(number)));
    assert!(rt; types.find("R") == Some(0));
}

#[test]
fn refused_memory_leaves_types_as_they_were(rt: HostRuntime) {
    let mut types = Types::new(rt.alloc());
    for (number, text) in [(0, "R"), (1, "L"), (2, "M"), (3, "N"), (4, "O")] {
        adds_in_the_end(&rt, &mut types, text, number);
    }
    drop(types);
}
