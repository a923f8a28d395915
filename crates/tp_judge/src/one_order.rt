//! The search for one order of everything that components did that gives their histories.
ghost use Rattle.std.specs.Prelude.{◌≡◌, ◌↔◌, ◌+◌, ◌*◌, ◌<◌, ◌≤◌, ◌^◌, ℕ, All};
ghost use Rattle.std.specs.Prelude.{IfNone, IfOk, IfSome, IsFalse, IsTrue, OnOk, length, map};
ghost use Rattle.std.specs.Prelude.{replicate, slice_get, slice_index, slice_set, sum};
ghost use Rattle.tp_judge.specs.OneOrder.{HasOneOrder};
ghost use Rattle.tp_judge.specs.Kinds.{AreOwned, came_in, histories_of};
ghost use Rattle.tp_judge.specs.OrderProgress.{AreBegun, BeginSo, HasSpace, HasSize, affected};
ghost use Rattle.tp_judge.specs.OrderProgress.{came_then, sent_then};
ghost use Rattle.tp_judge.specs.Greedy.{CanHappen, CannotGoOn, IsProgress, IsStuck, IsStuckSearch};
ghost use Rattle.tp_judge.specs.Greedy.{MaySend};
ghost use Rattle.tp_judge.specs.Cursors.{AreCursorsOf, HasPassedLooks, IsAfterLooks, IsCursorOf};
ghost use Rattle.tp_judge.specs.Cursors.{cursor_at};

use crate::histories::Histories;
use crate::kind::EntryKind;
use crate::progress::{ArrivalCursor, OrderProgress, Search};
use std::alloc::Global;
use tp_common::memory::Memory;

/// Moves the cursor to the arrival that so many others precede, and returns its message.
fn find_arrival<H: Histories>(
    histories: &H,
    to: usize,
    cursor: &mut ArrivalCursor,
    number: usize,
) -> Option<H::Message>
    requires to { to < H.size histories.now }
    requires cursor { IsCursorOf (H.kinds histories.now to) cursor.old }
    requires most { cursor.old.came ≤ number }
    ensures cursor { IsCursorOf (H.kinds histories.now to) cursor.new }
    ensures most { cursor.new.came ≤ number }
    ensures message { result ≡ slice_get (came_in (H.kinds histories.now to)) number }
    ensures after { IfSome result (λ _.
        IsAfterLooks (H.kinds histories.now to) number cursor.new.after) }
    ensures space { IfSome result (λ _. number + 1 < 2 ^ 64) }
{
    let end = histories.end(to);
    while cursor.place < end {
        match histories.kind(to, cursor.place) {
            EntryKind::Came(message) => {
                if cursor.came == number {
                    return Some(message);
                }
                cursor.came += 1;
            }
            EntryKind::Looked => cursor.after = cursor.place + 1,
            EntryKind::Sent(..) | EntryKind::Quiet | EntryKind::Nothing => {}
        }
        cursor.place += 1;
    }
    None
}

/// The next message that is to be sent to the component, if another one came there.
pub(crate) fn next_message<H: Histories>(
    histories: &H,
    progress: &OrderProgress,
    cursors: &mut Vec<ArrivalCursor>,
    to: usize,
) -> Option<H::Message>
    requires to { to < H.size histories.now }
    requires size { HasSize progress.now (H.size histories.now) }
    requires cursors { AreCursorsOf (H.kinds histories.now) (H.size histories.now)
        progress.now cursors.old.items }
    ensures cursors { AreCursorsOf (H.kinds histories.now) (H.size histories.now)
        progress.now cursors.new.items }
    ensures message { result ≡ slice_get (came_in (H.kinds histories.now to))
        (slice_index progress.now.sent.items to) }
    ensures after { IfSome result (λ _. HasPassedLooks (H.kinds histories.now to)
        (slice_index progress.now.sent.items to) cursors.new.items to) }
    ensures space { IfSome result (λ _. slice_index progress.now.sent.items to + 1 < 2 ^ 64) }
{
    let mut cursor = cursors[to];
    let message = find_arrival(histories, to, &mut cursor, progress.sent[to]);
    cursors[to] = cursor;
    message
}

fn may_send<H: Histories>(
    histories: &H,
    progress: &OrderProgress,
    cursors: &mut Vec<ArrivalCursor>,
    message: H::Message,
    to: usize,
) -> bool
    requires size { HasSize progress.now (H.size histories.now) }
    requires cursors { AreCursorsOf (H.kinds histories.now) (H.size histories.now)
        progress.now cursors.old.items }
    ensures cursors { AreCursorsOf (H.kinds histories.now) (H.size histories.now)
        progress.now cursors.new.items }
    ensures can { IsTrue result ↔ MaySend (H.kinds histories.now)
        (slice_index progress.now.places.items) (slice_index progress.now.sent.items) message to }
    ensures space { IsTrue result → (to < length progress.now.sent.items)
        × (slice_index progress.now.sent.items to + 1 < 2 ^ 64) }
{
    // Nothing comes to a component that isn't there.
    if to >= histories.size() {
        return false;
    }
    let Some(next) = next_message(histories, progress, &mut *cursors, to) else {
        return false;
    };
    if !histories.is_same(next, message) {
        return false;
    }
    cursors[to].after <= progress.places[to]
}

fn is_possible<H: Histories>(
    histories: &H,
    progress: &OrderProgress,
    cursors: &mut Vec<ArrivalCursor>,
    c: usize,
    kind: EntryKind<H::Message>,
) -> bool
    requires size { HasSize progress.now (H.size histories.now) }
    requires cursors { AreCursorsOf (H.kinds histories.now) (H.size histories.now)
        progress.now cursors.old.items }
    requires within { c < H.size histories.now }
    ensures cursors { AreCursorsOf (H.kinds histories.now) (H.size histories.now)
        progress.now cursors.new.items }
    ensures can { IsTrue result ↔ CanHappen (H.kinds histories.now)
        (slice_index progress.now.places.items) (slice_index progress.now.came.items)
        (slice_index progress.now.sent.items) c kind }
    ensures space { IsTrue result →
        HasSpace progress.now.came.items progress.now.sent.items c kind }
{
    match kind {
        EntryKind::Came(_) => progress.came[c] < progress.sent[c],
        EntryKind::Looked => progress.came[c] == progress.sent[c],
        EntryKind::Quiet | EntryKind::Nothing => true,
        EntryKind::Sent(to, message) => {
            may_send(histories, progress, cursors, message, to as usize)
        }
    }
}

fn pass_entry<M: Copy>(progress: &mut OrderProgress, c: usize, kind: EntryKind<M>)
    requires places { c < length progress.old.places.items }
    requires came { c < length progress.old.came.items }
    requires size { length progress.old.sent.items ≡ length progress.old.came.items }
    requires space { HasSpace progress.old.came.items progress.old.sent.items c kind }
    requires next { slice_index progress.old.places.items c + 1 < 2 ^ 64 }
    ensures places { progress.new.places.items ≡ slice_set progress.old.places.items c
        (slice_index progress.old.places.items c + 1) }
    ensures came { progress.new.came.items ≡ came_then c kind progress.old.came.items }
    ensures sent { progress.new.sent.items ≡ sent_then kind progress.old.sent.items }
{
    progress.places[c] += 1;
    match kind {
        EntryKind::Came(_) => progress.came[c] += 1,
        EntryKind::Sent(to, _) => progress.sent[to as usize] += 1,
        EntryKind::Looked | EntryKind::Quiet | EntryKind::Nothing => {}
    }
}

fn step<H: Histories>(
    histories: &H,
    progress: &mut OrderProgress,
    cursors: &mut Vec<ArrivalCursor>,
    c: usize,
) -> Option<EntryKind<H::Message>>
    requires size { HasSize progress.old (H.size histories.now) }
    requires cursors { AreCursorsOf (H.kinds histories.now) (H.size histories.now)
        progress.old cursors.old.items }
    requires within { c < H.size histories.now }
    requires progress { IsProgress (H.kinds histories.now) progress.old }
    ensures size { HasSize progress.new (H.size histories.now) }
    ensures cursors { AreCursorsOf (H.kinds histories.now) (H.size histories.now)
        progress.new cursors.new.items }
    ensures progress { IsProgress (H.kinds histories.now) progress.new }
    ensures ahead { IfSome result (λ kind. (affected c kind < H.size histories.now)
        × (sum progress.new.places.items ≡ sum progress.old.places.items + 1)) }
    ensures held { IfNone result (CannotGoOn (H.kinds histories.now)
        (slice_index progress.old.places.items) (slice_index progress.old.came.items)
        (slice_index progress.old.sent.items) c) }
    ensures same { IfNone result (progress.new ≡ progress.old) }
{
    let place = progress.places[c];
    if place >= histories.end(c) {
        return None;
    }
    let kind = histories.kind(c, place);
    if !is_possible(histories, progress, &mut *cursors, c, kind) {
        return None;
    }
    pass_entry(progress, c, kind);
    Some(kind)
}

fn push_unless_last(number: usize, ready: &mut Vec<usize>) -> Result<(), Memory>
    ensures below { (size : ℕ) → number < size → All (λ x. x < size) ready.old.items
        → OnOk result (All (λ x. x < size) ready.new.items) }
    ensures most { OnOk result (length ready.new.items ≤ length ready.old.items + 1) }
{
    // A number that is listed twice costs only a look.
    if ready.last() != Some(&number) {
        ready.push(number)?;
    }
    Ok(())
}

fn wake_next<H: Histories>(
    histories: &H,
    progress: &OrderProgress,
    cursors: &mut Vec<ArrivalCursor>,
    c: usize,
    to: usize,
    ready: &mut Vec<usize>,
) -> Result<(), Memory>
    requires size { HasSize progress.now (H.size histories.now) }
    requires cursors { AreCursorsOf (H.kinds histories.now) (H.size histories.now)
        progress.now cursors.old.items }
    requires to { to < H.size histories.now }
    requires below { All (λ x. x < H.size histories.now) ready.old.items }
    ensures cursors { AreCursorsOf (H.kinds histories.now) (H.size histories.now)
        progress.now cursors.new.items }
    ensures below { OnOk result (All (λ x. x < H.size histories.now) ready.new.items) }
    ensures most { OnOk result (length ready.new.items ≤ length ready.old.items + 1) }
{
    if let Some(message) = next_message(histories, progress, &mut *cursors, to) {
        let next = histories.sender(message);
        // A component that isn't there does nothing.
        if next != c && next < histories.size() {
            push_unless_last(next, &mut *ready)?;
        }
    }
    Ok(())
}

/// After an entry of component `c` lists those that may be able to go on because of it: the
/// component to which it sends, and the next to send to that one; or, after a look, the next to
/// send to this component, if that may have waited for the look.
// Most entries wake nobody. A call would take longer than that.
#[inline(always)]
fn wake<H: Histories>(
    histories: &H,
    progress: &OrderProgress,
    cursors: &mut Vec<ArrivalCursor>,
    c: usize,
    kind: EntryKind<H::Message>,
    ready: &mut Vec<usize>,
) -> Result<(), Memory>
    requires size { HasSize progress.now (H.size histories.now) }
    requires cursors { AreCursorsOf (H.kinds histories.now) (H.size histories.now)
        progress.now cursors.old.items }
    requires within { c < H.size histories.now }
    requires affected { affected c kind < H.size histories.now }
    requires below { All (λ x. x < H.size histories.now) ready.old.items }
    ensures cursors { AreCursorsOf (H.kinds histories.now) (H.size histories.now)
        progress.now cursors.new.items }
    ensures below { OnOk result (All (λ x. x < H.size histories.now) ready.new.items) }
    ensures most { OnOk result (length ready.new.items ≤ length ready.old.items + 2) }
{
    match kind {
        EntryKind::Sent(to, _) => {
            let to = to as usize;
            // Component `c` is being passed already.
            if to != c {
                push_unless_last(to, &mut *ready)?;
            }
            wake_next(histories, progress, cursors, c, to, ready)
        }
        EntryKind::Looked if cursors[c].after == progress.places[c] => {
            wake_next(histories, progress, cursors, c, c, ready)
        }
        EntryKind::Looked | EntryKind::Came(_) | EntryKind::Quiet | EntryKind::Nothing => Ok(()),
    }
}

/// Passes the component's entries as long as possible, and lists the components that may then be
/// able to go on.
fn pass_entries<H: Histories>(
    histories: &H,
    progress: &mut OrderProgress,
    cursors: &mut Vec<ArrivalCursor>,
    c: usize,
    ready: &mut Vec<usize>,
) -> Result<(), Memory>
    requires size { HasSize progress.old (H.size histories.now) }
    requires cursors { AreCursorsOf (H.kinds histories.now) (H.size histories.now)
        progress.old cursors.old.items }
    requires progress { IsProgress (H.kinds histories.now) progress.old }
    requires within { c < H.size histories.now }
    requires ready { All (λ x. x < H.size histories.now) ready.old.items }
    ensures size { HasSize progress.new (H.size histories.now) }
    ensures cursors { AreCursorsOf (H.kinds histories.now) (H.size histories.now)
        progress.new cursors.new.items }
    ensures progress { IsProgress (H.kinds histories.now) progress.new }
    ensures grown { sum progress.old.places.items ≤ sum progress.new.places.items }
    ensures ready { OnOk result (All (λ x. x < H.size histories.now) ready.new.items) }
    ensures most { OnOk result (length ready.new.items + 2 * sum progress.old.places.items
        ≤ length ready.old.items + 2 * sum progress.new.places.items) }
{
    while let Some(kind) = step(histories, &mut *progress, &mut *cursors, c) {
        wake(histories, progress, &mut *cursors, c, kind, &mut *ready)?;
    }
    Ok(())
}

/// Takes components out of the list and passes their entries as long as possible, until the list is
/// empty.
fn pass_ready<H: Histories>(
    histories: &H,
    progress: &mut OrderProgress,
    cursors: &mut Vec<ArrivalCursor>,
    ready: &mut Vec<usize>,
) -> Result<(), Memory>
    requires size { HasSize progress.old (H.size histories.now) }
    requires cursors { AreCursorsOf (H.kinds histories.now) (H.size histories.now)
        progress.old cursors.old.items }
    requires progress { IsProgress (H.kinds histories.now) progress.old }
    requires ready { All (λ x. x < H.size histories.now) ready.old.items }
    ensures size { HasSize progress.new (H.size histories.now) }
    ensures cursors { AreCursorsOf (H.kinds histories.now) (H.size histories.now)
        progress.new cursors.new.items }
    ensures progress { IsProgress (H.kinds histories.now) progress.new }
    ensures grown { sum progress.old.places.items ≤ sum progress.new.places.items }
    ensures ready { OnOk result (All (λ x. x < H.size histories.now) ready.new.items) }
{
    while let Some(c) = ready.pop() {
        pass_entries(histories, &mut *progress, &mut *cursors, c, &mut *ready)?;
    }
    Ok(())
}

/// Passes entries from each component on, and returns whether there were any.
fn pass_from_each<H: Histories>(
    histories: &H,
    progress: &mut OrderProgress,
    cursors: &mut Vec<ArrivalCursor>,
    ready: &mut Vec<usize>,
) -> Result<bool, Memory>
    requires size { HasSize progress.old (H.size histories.now) }
    requires cursors { AreCursorsOf (H.kinds histories.now) (H.size histories.now)
        progress.old cursors.old.items }
    requires progress { IsProgress (H.kinds histories.now) progress.old }
    requires ready { All (λ x. x < H.size histories.now) ready.old.items }
    ensures size { HasSize progress.new (H.size histories.now) }
    ensures cursors { AreCursorsOf (H.kinds histories.now) (H.size histories.now)
        progress.new cursors.new.items }
    ensures progress { IsProgress (H.kinds histories.now) progress.new }
    ensures ready { OnOk result (All (λ x. x < H.size histories.now) ready.new.items) }
    ensures ahead { IfOk result (λ any. IsTrue any
        → sum progress.old.places.items < sum progress.new.places.items) }
    ensures stuck { IfOk result (λ any. IsFalse any → IsStuck (H.kinds histories.now)
        (slice_index progress.new.places.items) (slice_index progress.new.came.items)
        (slice_index progress.new.sent.items)) }
{
    let mut any = false;
    for c in 0..histories.size() {
        match step(histories, &mut *progress, &mut *cursors, c) {
            None => {}
            Some(kind) => {
                any = true;
                ready.push(c)?;
                wake(histories, progress, &mut *cursors, c, kind, &mut *ready)?;
                pass_ready(histories, &mut *progress, &mut *cursors, &mut *ready)?;
            }
        }
    }
    Ok(any)
}

fn pass_until_stuck<H: Histories>(
    alloc: Global,
    histories: &H,
    progress: &mut OrderProgress,
    cursors: &mut Vec<ArrivalCursor>,
) -> Result<(), Memory>
    requires size { HasSize progress.old (H.size histories.now) }
    requires cursors { AreCursorsOf (H.kinds histories.now) (H.size histories.now)
        progress.old cursors.old.items }
    requires progress { IsProgress (H.kinds histories.now) progress.old }
    ensures size { HasSize progress.new (H.size histories.now) }
    ensures cursors { AreCursorsOf (H.kinds histories.now) (H.size histories.now)
        progress.new cursors.new.items }
    ensures progress { IsProgress (H.kinds histories.now) progress.new }
    ensures stuck { OnOk result (IsStuck (H.kinds histories.now)
        (slice_index progress.new.places.items) (slice_index progress.new.came.items)
        (slice_index progress.new.sent.items)) }
{
    let mut ready = Vec::new(alloc);
    // The second time finds only components that `wake` forgot.
    while pass_from_each(histories, &mut *progress, &mut *cursors, &mut ready)? {}
    Ok(())
}

/// A component that isn't at the end of its history when the search is stuck; `None` if and only if
/// there is one order.
pub(crate) fn unfinished<H: Histories>(histories: &H, progress: &OrderProgress) -> Option<usize>
    requires { IsStuckSearch (H.kinds histories.now) (H.size histories.now) progress.now }
    ensures ended { IfNone result (HasOneOrder (histories_of (H.kinds histories.now))) }
    ensures none { IfSome result (λ _. HasOneOrder (histories_of (H.kinds histories.now)) → ⊥) }
    ensures unfinished { IfSome result (λ c. (c < H.size histories.now)
        × (slice_index progress.now.places.items c < length (H.kinds histories.now c))) }
{
    for c in 0..histories.size() {
        if progress.places[c] < histories.end(c) {
            return Some(c);
        }
    }
    None
}

fn first_places<H: Histories>(alloc: Global, histories: &H) -> Result<Vec<usize>, Memory>
    requires { BeginSo (H.kinds histories.now) (H.size histories.now) (H.begin histories.now) }
    ensures { IfOk result (λ places.
        AreBegun (H.kinds histories.now) (H.size histories.now) places.items) }
{
    let mut places = Vec::with_capacity(alloc, histories.size())?;
    for c in 0..histories.size() {
        places.push(histories.begin(c))?;
    }
    Ok(places)
}

fn cursors_at(alloc: Global, places: &[usize]) -> Result<Vec<ArrivalCursor>, Memory>
    ensures { IfOk result (λ cursors. cursors.items ≡ map cursor_at places.now) }
{
    let mut cursors = Vec::with_capacity(alloc, places.len())?;
    for place in places {
        cursors.push(ArrivalCursor {
            place: *place,
            came: 0,
            after: 0,
        })?;
    }
    Ok(cursors)
}

fn begin<H: Histories>(alloc: Global, histories: &H) -> Result<OrderProgress, Memory>
    requires { BeginSo (H.kinds histories.now) (H.size histories.now) (H.begin histories.now) }
    ensures places { IfOk result (λ progress. AreBegun (H.kinds histories.now)
        (H.size histories.now) progress.places.items) }
    ensures came { IfOk result (λ progress.
        progress.came.items ≡ replicate (H.size histories.now) 0) }
    ensures sent { IfOk result (λ progress.
        progress.sent.items ≡ replicate (H.size histories.now) 0) }
{
    let places = first_places(alloc, histories)?;
    let came = vec![in alloc; 0; histories.size()]?;
    let sent = vec![in alloc; 0; histories.size()]?;
    Ok(OrderProgress { places, came, sent })
}

/// Goes through the histories as far as one order of everything that the components did goes.
pub(crate) fn search_order<H: Histories>(alloc: Global, histories: &H) -> Result<Search, Memory>
    requires owned { AreOwned (H.kinds histories.now) }
    requires begun { BeginSo (H.kinds histories.now) (H.size histories.now)
        (H.begin histories.now) }
    ensures stuck { IfOk result (λ found.
        IsStuckSearch (H.kinds histories.now) (H.size histories.now) found.progress) }
    ensures cursors { IfOk result (λ found. AreCursorsOf (H.kinds histories.now)
        (H.size histories.now) found.progress found.cursors.items) }
{
    let mut progress = begin(alloc, histories)?;
    let mut cursors = cursors_at(alloc, &progress.places)?;
    pass_until_stuck(alloc, histories, &mut progress, &mut cursors)?;
    Ok(Search { progress, cursors })
}

/// Returns whether there is one order of everything that the components did that gives their
/// histories, with each message in its queue as soon as it is sent. It takes time linear in the
/// histories if `wake` forgets no component; no clause says so.
pub fn has_one_order<H: Histories>(alloc: Global, histories: &H) -> Result<bool, Memory>
    requires owned { AreOwned (H.kinds histories.now) }
    requires begun { BeginSo (H.kinds histories.now) (H.size histories.now)
        (H.begin histories.now) }
    ensures { IfOk result (λ is. IsTrue is ↔ HasOneOrder (histories_of (H.kinds histories.now))) }
{
    let found = search_order(alloc, histories)?;
    Ok(unfinished(histories, &found.progress).is_none())
}
