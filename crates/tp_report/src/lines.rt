//! The lines of a report, kind by kind.
ghost use Rattle.std.specs.Prelude.{◌∷◌, ◌++◌, []};
ghost use Rattle.std.specs.Fmt.{decimal};
ghost use Rattle.tp_common.specs.Watching.{Writes};
ghost use Rattle.tp_common.specs.Label.{label};
ghost use Rattle.tp_config.specs.Setup.{IsComponent, IsPort};
ghost use Rattle.tp_inbox.specs.Faults.{send_refusal};
ghost use Rattle.tp_report.specs.ReportWords.{component_name, line, message_text, port_name, rest_of_line};
ghost use Rattle.tp_report.specs.ReportWords.{verdict_word};
ghost use Rattle.tp_report.specs.LineOpenings.{HaveTheirTexts, NamesKnown, fate_word, opening_text};
ghost use Rattle.tp_report.specs.Lines.{end_text, heading, sender_of, sent_line};

use crate::opening::{Fate, KeptOpenings, Opening, write_opening};
use crate::rest::write_rest_of_line;
use crate::words::{verdict_word, write_component_name, write_port_name};
use std::io::Write;
use tp_common::event::Env;
use tp_common::watched::{Watched, write_bytes, write_number};
use tp_config::port_type::{CompId, PortRef, RouteId};
use tp_inbox::ending::End;
use tp_inbox::noted::NotedEnvelope;
use tp_inbox::noted_message::NotedMessage;
use tp_inbox::send_fault::SendFault;
use tp_play::test_case::TestCase;
use tp_value::message::Message;
use tp_value::types::Ty;
use tp_value::value::Value;
use tp_value::verdict::Verdict;

pub fn write_heading<W: Write>(test_case: &TestCase, comp: CompId, out: &mut Watched<W>)
    requires { IsComponent test_case.now.config comp }
    ensures { Writes W.contents out.old out.new (heading test_case.now comp) }
{
    write_bytes(b"component ", out);
    write_component_name(test_case.config(), comp, out);
    write_bytes(b"\n", out)
}

/// `word` ends with a space.
pub fn write_verdict<W: Write>(word: &[u8], verdict: Verdict, out: &mut Watched<W>)
    ensures { Writes W.contents out.old out.new (word.now ++ line (verdict_word verdict ∷ [])) }
{
    write_bytes(word, out);
    write_bytes(verdict_word(verdict), out);
    write_bytes(b"\n", out)
}

pub fn write_failure<W: Write>(word: &[u8], fault: SendFault, out: &mut Watched<W>)
    ensures { Writes W.contents out.old out.new
        (word.now ++ line (decimal (label (send_refusal fault)).0 ∷ [])) }
{
    write_bytes(word, out);
    write_number(fault.refusal().label().0 as u64, out);
    write_bytes(b"\n", out)
}

pub fn write_end<W: Write>(ending: End, out: &mut Watched<W>)
    ensures { Writes W.contents out.old out.new (end_text ending) }
{
    match ending {
        End::Done => write_bytes(b"end done\n", out),
        End::Error(fault) => write_failure(b"end error ", fault, out),
        End::Waiting => write_bytes(b"end waiting\n", out),
    }
}

pub fn write_port<W: Write>(test_case: &TestCase, word: &[u8], port: PortRef, out: &mut Watched<W>)
    requires { IsPort test_case.now.config port }
    ensures { Writes W.contents out.old out.new
        (word.now ++ line (port_name test_case.now.config port ∷ [])) }
{
    write_bytes(word, out);
    write_port_name(test_case.config(), port, out);
    write_bytes(b"\n", out)
}

/// Writes a line on a message.
fn write_line<W: Write>(
    test_case: &TestCase,
    opening: Opening,
    number: u64,
    ty: Ty,
    value: &Value,
    kept: &mut KeptOpenings,
    out: &mut Watched<W>,
)
    requires named { NamesKnown test_case.now.config opening }
    requires kept { HaveTheirTexts test_case.now.config kept.old }
    ensures written { Writes W.contents out.old out.new (opening_text test_case.now.config opening
        ++ rest_of_line (decimal number
        ∷ message_text test_case.now.types record { ty = ty; value = value.now } ∷ [])) }
    ensures kept { HaveTheirTexts test_case.now.config kept.new }
{
    write_opening(test_case.config(), opening, kept, out);
    write_rest_of_line(test_case.types(), number, ty, value, out)
}

pub fn write_envelope<W: Write>(
    test_case: &TestCase,
    fate: Fate,
    port: PortRef,
    env: &Env<Message>,
    kept: &mut KeptOpenings,
    out: &mut Watched<W>,
)
    requires port { IsPort test_case.now.config port }
    requires sender { IsComponent test_case.now.config (sender_of env.now) }
    requires kept { HaveTheirTexts test_case.now.config kept.old }
    ensures written { Writes W.contents out.old out.new
        (fate_word fate ++ line (port_name test_case.now.config port ∷ component_name
        test_case.now.config (sender_of env.now) ∷ decimal env.now.number ∷ message_text
        test_case.now.types env.now.msg ∷ [])) }
    ensures kept { HaveTheirTexts test_case.now.config kept.new }
{
    let opening = Opening::At(fate, port, CompId(env.sender));
    write_line(
        test_case,
        opening,
        env.number,
        env.msg.ty,
        &env.msg.value,
        kept,
        out,
    )
}

/// Writes a line on an envelope in a history.
pub fn write_noted<W: Write>(
    test_case: &TestCase,
    fate: Fate,
    port: PortRef,
    env: &NotedEnvelope,
    kept: &mut KeptOpenings,
    out: &mut Watched<W>,
)
    requires port { IsPort test_case.now.config port }
    requires sender { IsComponent test_case.now.config (sender_of env.now) }
    requires kept { HaveTheirTexts test_case.now.config kept.old }
    ensures written { Writes W.contents out.old out.new
        (fate_word fate ++ line (port_name test_case.now.config port ∷ component_name
        test_case.now.config (sender_of env.now) ∷ decimal env.now.number ∷ message_text
        test_case.now.types env.now.msg ∷ [])) }
    ensures kept { HaveTheirTexts test_case.now.config kept.new }
{
    let opening = Opening::At(fate, port, CompId(env.sender()));
    write_line(
        test_case,
        opening,
        env.number(),
        env.ty(),
        env.value(),
        kept,
        out,
    )
}

pub fn write_sent<W: Write>(
    test_case: &TestCase,
    route: RouteId,
    number: u64,
    sent: &NotedMessage,
    kept: &mut KeptOpenings,
    out: &mut Watched<W>,
)
    requires port { IsPort test_case.now.config route.to }
    requires kept { HaveTheirTexts test_case.now.config kept.old }
    ensures written { Writes W.contents out.old out.new
        (sent_line test_case.now route number sent.now.message) }
    ensures kept { HaveTheirTexts test_case.now.config kept.new }
{
    write_line(
        test_case,
        Opening::Sent(route.to),
        number,
        sent.ty(),
        sent.value(),
        kept,
        out,
    )
}
