//! Copies of lists of many elements.
use crate::values::writes;
use std::process::Abort;
use tp_value::equal::are_equal;
use tp_value::items::Items;
use tp_value::shared::Shared;
use tp_value::types::{Ty, TypeDef, Types};
use tp_value::value::Value;

fn long_list<R: AllocGlobal + Abort>(rt: &R, length: u32) -> Value {
    let mut elements = Items::new(rt.alloc());
    for number in 0..length {
        assert!(rt; elements.push(Value::Int(i64::from(number))).is_ok());
    }
    Value::List(Shared::new(rt.alloc(), elements).expect(rt, "memory"))
}

fn equals_its_copy<R: AllocGlobal + Abort>(rt: &R, length: u16) {
    let length = u32::from(length);
    let value = long_list(rt, length);
    let twin = value.copy(rt.alloc()).expect(rt, "memory");
    let longer = long_list(rt, length + 1);
    assert!(rt; are_equal(&value, &twin));
    assert!(rt; !are_equal(&longer, &twin));
    drop((value, twin, longer));
}

#[test]
fn lists_of_many_elements_are_copied(rt: HostRuntime) {
    for length in [0, 1, 2, 63, 64, 65, 1_000] {
        equals_its_copy(&rt, length);
    }
}

fn numbers_to_999<R: AllocGlobal + Abort>(rt: &R) -> String {
    let mut wanted = String::from_str(rt.alloc(), "{0").expect(rt, "memory");
    for number in 1..1_000 {
        write!(wanted, ", {number}").expect(rt, "memory");
    }
    wanted.push_str("}").expect(rt, "memory");
    wanted
}

#[test]
fn a_copy_of_1000_elements_is_written(rt: HostRuntime) {
    let mut types = Types::new(rt.alloc());
    assert_eq!(rt; types.len(), 0);
    let name = String::from_str(rt.alloc(), "L").expect(&rt, "memory");
    assert!(rt; types.add(name, TypeDef::ListOf(Ty::Integer)).is_ok());
    let list = long_list(&rt, 1_000);
    let twin = list.copy(rt.alloc()).expect(&rt, "memory");
    let wanted = numbers_to_999(&rt);
    writes(&rt, &types, Ty::Named(0), &twin, wanted.as_str());
    drop((types, list, twin));
}
