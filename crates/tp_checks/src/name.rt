//! Names and their places.
ghost use Rattle.std.specs.{Prelude.◌≡◌, Prelude.IfSome, Prelude.IfNone, Str.bytes_eq};
ghost use Rattle.tp_checks.specs.Named.{IsPlace, IsAbsent, texts};

/// A name of the text (ES 201 873-1, 5.2.2).
#[derive(Clone, Copy)]
pub struct BorrowedName<'m> {
    /// Its bytes, as they are written.
    pub text: &'m str,
}

fn is_called(other: &BorrowedName, name: &str) -> bool
    ensures { result ≡ bytes_eq other.now.text.now name.now }
{
    other.text == name
}

/// The first place of the name, from 0. It compares the names one by one, so it is for short lists.
pub fn find(names: &[BorrowedName], name: &str) -> Option<usize>
    ensures there { IfSome result (λ place. IsPlace (texts names.now) name.now place) }
    ensures absent { IfNone result (IsAbsent (texts names.now) name.now) }
{
    for (place, other) in names.iter().enumerate() {
        if is_called(other, name) {
            return Some(place);
        }
    }
    None
}
