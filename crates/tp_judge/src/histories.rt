//! Histories of components, as the search for one order sees them.
ghost use Rattle.std.specs.Prelude.{◌≡◌, ◌<◌, ◌≤◌, ◌↔◌, ℕ, IsTrue, Some, [], length, slice_get};
ghost use Rattle.tp_judge.specs.Kinds.{Kinds};

use crate::kind::EntryKind;

/// The histories of components that are numbered from 0. They may begin with places at which
/// nothing stands.
pub trait Histories {
    /// A message, as messages are compared.
    type Message: Copy;

    /// The history of the component of each number.
    ghost kinds: { Self → Kinds Self.Message };

    /// The number of components.
    ghost size: { Self → ℕ };

    /// The place at which each history begins: nothing stands before it.
    ghost begin: { Self → ℕ → ℕ };

    fn size(&self) -> usize
        ensures { result ≡ size self.now };

    fn begin(&self, component: usize) -> usize
        requires { component < size self.now }
        ensures { result ≡ begin self.now component };

    fn end(&self, component: usize) -> usize
        requires { component < size self.now }
        ensures { result ≡ length (kinds self.now component) };

    fn kind(&self, component: usize, place: usize) -> EntryKind<Self::Message>
        requires component { component < size self.now }
        requires place { place < length (kinds self.now component) }
        ensures { slice_get (kinds self.now component) place ≡ Some result };

    /// The component that sends the message, as far as that is known: no clause depends on it.
    fn sender(&self, message: Self::Message) -> usize;

    fn is_same(&self, one: Self::Message, other: Self::Message) -> bool
        ensures { IsTrue result ↔ (one ≡ other) };

    /// There is no other component.
    ghost no_more: { (histories : Self) (component : ℕ) → size histories ≤ component
        → kinds histories component ≡ [] };
}
