//! The calls of `tp_value`.
use std::process::Abort;
use tp_port::{Payload, Wanted, Watched};
use tp_value::fitting::template_fits;
use tp_value::matching::matches;
use tp_value::message::{Message, MsgTemplate};
use tp_value::template::Template;
use tp_value::types::{Ty, TypeDef, Types};
use tp_value::typing::has_type;
use tp_value::value::Value;
use tp_value::writing::write_value;

#[test]
fn named_types(rt: HostRuntime) {
    let mut types = Types::new(rt.alloc());
    let name = String::from_str(rt.alloc(), "L").expect(&rt, "memory");
    assert!(rt; types.add(name, TypeDef::ListOf(Ty::Integer)) == Ok(0));
    assert!(rt; types.find("L") == Some(0));
    drop(types);
}

#[test]
fn values(rt: HostRuntime) {
    let types = Types::new(rt.alloc());
    let (value, any) = (Value::Int(-5), Template::Any);
    assert!(rt; has_type(&types, Ty::Integer, &value) && !has_type(&types, Ty::Boolean, &value));
    assert!(rt; template_fits(&types, Ty::Integer, &any) && matches(&any, &value));
    assert!(rt; value.copy(rt.alloc()).is_ok() && any.copy(rt.alloc()).is_ok());
    let mut printed = Watched::new(Vec::new(rt.alloc()));
    write_value(&types, Ty::Integer, &value, &mut printed);
    assert!(rt; !printed.has_failed() && printed.into_inner().as_slice() == b"-5".as_slice());
    drop((types, value, any));
}

#[test]
fn messages(rt: HostRuntime) {
    let message = Message {
        ty: Ty::Integer,
        value: Value::Int(5),
    };
    let wanted = MsgTemplate::Of(Ty::Integer, Template::Any);
    assert!(rt; wanted.admits(&message) && message.copy(rt.alloc()).is_ok());
    drop((message, wanted));
}
