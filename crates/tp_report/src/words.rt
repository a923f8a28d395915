//! The words of a report's lines.
ghost use Rattle.std.specs.Prelude.{◌≡◌, ◌++◌, codes};
ghost use Rattle.std.specs.Fmt.{decimal};
ghost use Rattle.tp_common.specs.Watching.{Writes};
ghost use Rattle.tp_value.specs.declared.types.Ty.TheVariants as ty;
ghost use Rattle.tp_config.specs.Setup.{IsComponent, IsPort};
ghost use Rattle.tp_report.specs.ReportWords.{component_name, message_text, port_name, type_name, verdict_word};

use itoa::write_digits;
use std::io::Write;
use tp_common::watched::{Watched, write_bytes};
use tp_config::config::Config;
use tp_config::port_type::{CompId, PortRef};
use tp_value::types::{Ty, Types};
use tp_value::value::Value;
use tp_value::verdict::Verdict;
use tp_value::writing::write_value;

pub fn write_spaced<W: Write>(number: u64, out: &mut Watched<W>)
    ensures { Writes W.contents out.old out.new (codes " " ++ (decimal number ++ codes " ")) }
{
    // A number has 20 digits at most.
    let mut text = [b' '; 22];
    let start = write_digits(number, &mut text, 21);
    write_bytes(&text[start - 1..], out)
}

pub fn component_name(config: &Config, comp: CompId) -> &[u8]
    requires { IsComponent config.now comp }
    ensures { result.now ≡ component_name config.now comp }
{
    config.name(comp).as_bytes()
}

pub fn write_component_name<W: Write>(config: &Config, comp: CompId, out: &mut Watched<W>)
    requires { IsComponent config.now comp }
    ensures { Writes W.contents out.old out.new (component_name config.now comp) }
{
    write_bytes(component_name(config, comp), out)
}

pub fn port_name(config: &Config, port: PortRef) -> &[u8]
    requires { IsPort config.now port }
    ensures { result.now ≡ port_name config.now port }
{
    match config
        .comp_type(port.comp)
        .ports
        .get_index(port.port as usize)
    {
        Some((name, _)) => name.as_bytes(),
        None => &[],
    }
}

pub fn write_port_name<W: Write>(config: &Config, port: PortRef, out: &mut Watched<W>)
    requires { IsPort config.now port }
    ensures { Writes W.contents out.old out.new (port_name config.now port) }
{
    write_bytes(port_name(config, port), out)
}

fn named_type(types: &Types, number: u32) -> &[u8]
    ensures { result.now ≡ type_name types.now (ty.Named number) }
{
    match types.name(number) {
        Some(name) => name.as_bytes(),
        None => &[],
    }
}

fn write_type<W: Write>(types: &Types, ty: Ty, out: &mut Watched<W>)
    ensures { Writes W.contents out.old out.new (type_name types.now ty ++ codes ":") }
{
    match ty {
        Ty::Integer => write_bytes(b"integer:", out),
        Ty::Boolean => write_bytes(b"boolean:", out),
        Ty::Charstring => write_bytes(b"charstring:", out),
        Ty::Named(number) => {
            write_bytes(named_type(types, number), out);
            write_bytes(b":", out)
        }
    }
}

/// Writes a message: its type and its value. If the value doesn't have the type, the text is
/// meaningless.
pub fn write_message<W: Write>(types: &Types, ty: Ty, value: &Value, out: &mut Watched<W>)
    ensures { Writes W.contents out.old out.new
        (message_text types.now record { ty = ty; value = value.now }) }
{
    write_type(types, ty, out);
    write_value(types, ty, value, out)
}

pub fn verdict_word(verdict: Verdict) -> &'static [u8]
    ensures { result.now ≡ verdict_word verdict }
{
    match verdict {
        Verdict::None => b"none",
        Verdict::Pass => b"pass",
        Verdict::Inconc => b"inconc",
        Verdict::Fail => b"fail",
        Verdict::Error => b"error",
    }
}
