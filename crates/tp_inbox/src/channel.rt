//! The parts that the ends of one inbox share.
ghost use Rattle.std.specs.Prelude.{◌≡◌, ◌<◌, length};
ghost use Rattle.tp_inbox.specs.Noted.{IsShortType};
ghost use Rattle.tp_inbox.specs.Routed.{AreRoutes, env_of, route_at};

use crate::envelope::InboxEnvelope;
use crate::rule::InboxQueue;
use crate::stamped::Stamped;
use std::alloc::Global;
use std::sync::{Arc, Condvar, Mutex, MutexGuard, Wait};
use tp_common::event::Env;
use tp_config::port_type::{CompId, RouteId};
use tp_floor::floor::Floor;
use tp_floor::hook::NoHook;
use tp_floor::notifier::{Notifier, Woken};
use tp_value::message::Message;

/// The parts that an owner and its senders share: the queue, the routes into the component, and the
/// notifier.
///
/// A push comes before its announcement, and only an announcement wakes. So an owner may take out
/// what isn't announced yet. It counts what it took, and waits for more than that, so that the
/// later announcement doesn't wake it for what is gone. No waking is lost, because the owner looks
/// and begins to rest under the lock under which a push is announced: either it finds the
/// announcement, or the announcement finds it at rest. A call that ends a rest takes it from the
/// floor under that lock before it wakes, so that a behaviour on its way back counts as awake. No
/// notifier is taken while the floor is changed.
pub(crate) struct Channel {
    pub(crate) queue: InboxQueue,
    pub(crate) comp: CompId,
    pub(crate) ports: usize,
    /// The routes into the component. An envelope names its route by its place in this list.
    pub(crate) routes: Vec<RouteId>,
    notifier: Mutex<Notifier>,
    waking: Condvar,
    ghost routed: { AreRoutes comp ports routes.items },
}

impl Channel {
    pub(crate) fn over(
        queue: InboxQueue,
        comp: CompId,
        ports: usize,
        routes: Vec<RouteId>,
        floor: Arc<Floor, Global>,
    ) -> Channel
        requires { AreRoutes comp ports routes.items }
        ensures queue { result.queue ≡ queue }
        ensures comp { result.comp ≡ comp }
        ensures ports { result.ports ≡ ports }
        ensures routes { result.routes ≡ routes }
    {
        Channel {
            queue,
            comp,
            ports,
            routes,
            notifier: Mutex::new(Notifier::new(floor)),
            waking: Condvar::new(),
        }
    }

    /// Announces a push, and wakes the owner if it rests and hasn't taken this one out yet.
    pub(crate) fn announce<R: Wait>(&self, rt: &R) {
        let mut notifier = self.notifier.lock(rt);
        let wakes = notifier.announce(rt, &mut NoHook);
        self.wake(notifier, wakes);
    }

    /// Closes the inbox, and wakes the owner if it rests.
    pub(crate) fn close<R: Wait>(&self, rt: &R) {
        let mut notifier = self.notifier.lock(rt);
        let wakes = notifier.close(rt, &mut NoHook);
        self.wake(notifier, wakes);
    }

    /// Releases the notifier, and wakes the owner if it is to be woken. It wakes all that wait at
    /// this inbox, because a wait only borrows the owner, so that there may be two.
    fn wake(&self, notifier: MutexGuard<Notifier>, wakes: bool) {
        // Before the call: a thread that is woken takes the lock at once.
        drop(notifier);
        if wakes {
            self.waking.notify_all();
        }
    }

    /// Waits until more than `taken` pushes were announced or the inbox is closed, unless no other
    /// living behaviour is awake.
    pub(crate) fn wait_past<R: Wait>(&self, rt: &R, taken: u64) -> Woken {
        let mut notifier = self.notifier.lock(rt);
        // Under the lock, so that nothing is announced between the look and the rest.
        if let Some(found) = notifier.look(taken) {
            return found;
        }
        if let Some(last) = notifier.begin_rest(rt, &mut NoHook, taken) {
            return last;
        }
        let notifier = self
            .waking
            .wait_while(rt, notifier, |notifier| notifier.rests());
        notifier.woken(taken)
    }

    pub(crate) fn addressed(&self, envelope: InboxEnvelope) -> (u32, Env<Message>, u32)
        requires { envelope.place < length self.now.routes.items }
        ensures port { result.0 ≡ (route_at self.now.routes.items envelope.place).to.port }
        ensures env { result.1 ≡ env_of self.now.routes.items envelope }
        ensures stamp { result.2 ≡ envelope.stamped.stamp }
        ensures short { IsShortType result.1.msg.ty }
    {
        let route = self.routes[envelope.place as usize];
        let Stamped { stamp, message } = envelope.stamped.into_stamped();
        let env = Env {
            sender: route.source.0,
            number: envelope.number as u64,
            msg: message,
        };
        (route.to.port, env, stamp)
    }
}

impl Drop for Channel {
    fn drop(self) {
        let Channel {
            queue,
            comp: _,
            ports: _,
            routes: _,
            notifier: _,
            waking: _,
        } = self;
        queue.destroy();
    }
}
