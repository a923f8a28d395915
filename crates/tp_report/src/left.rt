//! The messages left in a component's queues.
ghost use Rattle.std.specs.Prelude.{All, codes};
ghost use Rattle.std.specs.List.{flat_map};
ghost use Rattle.tp_common.specs.Watching.{Writes};
ghost use Rattle.tp_config.specs.Setup.{IsComponent, IsPort};
ghost use Rattle.tp_report.specs.LineOpenings.{HaveTheirTexts};
ghost use Rattle.tp_report.specs.Lines.{envelope_line, left_below, sender_of};
ghost use Rattle.tp_report.specs.Reports.{IsDeskIn};

use crate::lines::write_envelope;
use crate::opening::{Fate, KeptOpenings};
use std::io::Write;
use tp_common::watched::Watched;
use tp_config::port_type::PortRef;
use tp_inbox::desk::Desk;
use tp_play::test_case::TestCase;
use tp_queue::queue::Queue;
use tp_value::message::Message;

fn write_queued<W: Write>(
    test_case: &TestCase,
    port: PortRef,
    queue: &Queue<Message>,
    kept: &mut KeptOpenings,
    out: &mut Watched<W>,
)
    requires port { IsPort test_case.now.config port }
    requires senders { All (λ e. IsComponent test_case.now.config (sender_of e))
        queue.now.entries }
    requires kept { HaveTheirTexts test_case.now.config kept.old }
    ensures written { Writes W.contents out.old out.new
        (flat_map (envelope_line test_case.now (codes "left") port) queue.now.entries) }
    ensures kept { HaveTheirTexts test_case.now.config kept.new }
{
    for place in 0..queue.queued_len() {
        if let Some(env) = queue.queued_at(place) {
            write_envelope(test_case, Fate::Left, port, env, kept, out);
        }
    }
}

pub fn write_left<W: Write>(
    test_case: &TestCase,
    desk: &Desk,
    kept: &mut KeptOpenings,
    out: &mut Watched<W>,
)
    requires own { IsDeskIn test_case.now.config desk.now.comp desk.now }
    requires kept { HaveTheirTexts test_case.now.config kept.old }
    ensures written { Writes W.contents out.old out.new
        (left_below test_case.now desk.now desk.now.ports) }
    ensures kept { HaveTheirTexts test_case.now.config kept.new }
{
    // Called for its clause `lawful`: no component has more than 64 ports.
    let _lawful = test_case.config().len();
    let comp = desk.comp();
    for place in 0..desk.port_count() {
        let port = PortRef {
            comp,
            port: place as u32,
        };
        write_queued(test_case, port, desk.queue(port.port), kept, out);
    }
}
