//! Templates, and their copies.
ghost use Rattle.std.specs.Prelude.{◌≡◌, IfOk};

use crate::items::Items;
use crate::value::Value;
use std::alloc::Global;
use tp_common::memory::Memory;

/// A part of a pattern (ES 201 873-1, B.1.5).
#[derive(Clone, Copy, Debug)]
pub enum PatternPart {
    Literal(u8),
    /// `?`: any one character.
    One,
    /// `*`: any number of characters, including none.
    AnyOrNone,
}

/// A template of values (ES 201 873-1, 15). [`template_fits`](crate::fitting::template_fits) says
/// which types it fits, and [`matches`](crate::matching::matches) which values match it.
///
/// As with values, only memory and the stack bound the depth.
#[derive(Debug, Drop)]
pub enum Template {
    /// A specific value (B.1.1).
    Exact(Value),
    /// `?`: any value (B.1.2.3).
    Any,
    /// `*`: any number of elements, including none (B.1.3.2). It fits only among the elements of a
    /// `List`, and by itself matches nothing.
    AnyOrNone,
    /// `(t1, t2, ..)`: values that match some member (B.1.2.1).
    OneOf(Items<Template>),
    /// `complement (t1, ..)`: values that match no member (B.1.2.2).
    NoneOf(Items<Template>),
    /// `(lower .. upper)`: the integers from the lower to the upper bound, both included. An absent
    /// bound is `-infinity` or `infinity` (B.1.2.5).
    Range(Option<i64>, Option<i64>),
    /// `pattern "..."`: the charstrings that can be cut into pieces, one for each part (B.1.5).
    Pattern(Items<PatternPart>),
    /// `{..}` for a record: one template for each field, in declared order (B.1.1).
    Record(Items<Template>),
    /// `{..}` for a record of: the lists that can be cut into pieces, any piece for `*` and one
    /// element for each other template (B.1.3).
    List(Items<Template>),
}

impl Template {
    ghost use Rattle.std.specs.Prelude.{◌≡◌, IfOk};
    ghost use Rattle.tp_value.specs.Matches.{is_many};

    /// Returns whether it is `*`.
    pub fn is_many(&self) -> bool
        ensures { result ≡ is_many self.now }
    {
        match self {
            Template::AnyOrNone => true,
            Template::Exact(_) => false,
            Template::Any => false,
            Template::OneOf(_) => false,
            Template::NoneOf(_) => false,
            Template::Range(_, _) => false,
            Template::Pattern(_) => false,
            Template::Record(_) => false,
            Template::List(_) => false,
        }
    }

    /// A copy, which equals the original.
    #[cycle(copy_template)]
    pub fn copy(&self, alloc: Global) -> Result<Template, Memory>
        ensures { IfOk result (λ twin. twin ≡ self.now) }
    {
        match self {
            Template::Exact(value) => Ok(Template::Exact(value.copy(alloc)?)),
            Template::Any => Ok(Template::Any),
            Template::AnyOrNone => Ok(Template::AnyOrNone),
            Template::OneOf(members) => Ok(Template::OneOf(copy_all(alloc, members.as_slice())?)),
            Template::NoneOf(members) => Ok(Template::NoneOf(copy_all(alloc, members.as_slice())?)),
            Template::Range(lower, upper) => Ok(Template::Range(*lower, *upper)),
            Template::Pattern(parts) => {
                Ok(Template::Pattern(Items::from_slice(alloc, parts.as_slice())?))
            }
            Template::Record(members) => Ok(Template::Record(copy_all(alloc, members.as_slice())?)),
            Template::List(members) => Ok(Template::List(copy_all(alloc, members.as_slice())?)),
        }
    }
}

#[cycle(copy_template)]
fn copy_all(alloc: Global, templates: &[Template]) -> Result<Items<Template>, Memory>
    ensures { IfOk result (λ twins. twins ≡ templates.now) }
{
    let mut twins = Items::new(alloc);
    for template in templates {
        twins.push(template.copy(alloc)?)?;
    }
    Ok(twins)
}
