//! Lists of message types, which port types share.
ghost use Rattle.std.specs.Prelude.{◌≡◌, IfOk};
ghost use Rattle.std.specs.List.{IsDistinct, list_any};
ghost use Rattle.tp_config.specs.Types.{HaveSame, same_type};

use indexmap::IndexSet;
use std::alloc::Global;
use std::marker::Model;
use std::sync::Arc;
use tp_common::memory::Memory;
use tp_value::items::Items;
use tp_value::types::Ty;

#[derive(Drop)]
struct Listed {
    items: Items<Ty>,
    known: IndexSet<Ty>,
}

impl Model for Listed {
    ghost use Rattle.std.specs.Prelude.{List};
    ghost use Rattle.tp_value.specs.declared.types.Ty.{Ty};
    ghost use Rattle.tp_config.specs.Types.{HaveSame};

    ghost Value = { List Ty };

    ghost view = { λ l. l.items };

    ghost invariant = { λ l. HaveSame l.known.keys l.items };
}

fn known_types(alloc: Global, types: &[Ty]) -> Result<IndexSet<Ty>, Memory>
    ensures { IfOk result (λ known. HaveSame known.keys types.now) }
{
    let mut known = IndexSet::new(alloc);
    for ty in types {
        known.insert(*ty)?;
    }
    Ok(known)
}

impl Listed {
    fn new(alloc: Global, items: Items<Ty>) -> Result<Listed, Memory>
        ensures { IfOk result (λ listed. listed ≡ items) }
    {
        let known = known_types(alloc, items.as_slice())?;
        Ok(Listed { items, known })
    }

    fn as_slice(&self) -> &[Ty]
        ensures { result.now ≡ self.now }
    {
        self.items.as_slice()
    }

    fn distinct(&self) -> &[Ty]
        ensures same { HaveSame result.now self.now }
        ensures once { IsDistinct same_type result.now }
    {
        self.known.as_slice()
    }

    fn has(&self, ty: Ty) -> bool
        ensures { result ≡ list_any (λ other. same_type other ty) self.now }
    {
        self.known.contains(&ty)
    }
}

/// The message types that a port type receives or sends, in the order in which it lists them (ES
/// 201 873-1, 6.2.9). Contracts see the list. It never changes, and several port types may share
/// one list: each then holds its own handle, and the types are in memory once.
#[derive(Drop)]
pub struct TypeList {
    listed: Arc<Listed>,
}

impl Model for TypeList {
    ghost use Rattle.std.specs.Prelude.{List};
    ghost use Rattle.std.specs.Arc.{arc_value};
    ghost use Rattle.tp_value.specs.declared.types.Ty.{Ty};

    ghost Value = { List Ty };

    ghost view = { λ l. arc_value l.listed };
}

impl TypeList {
    /// A list of these types, in their order.
    pub fn from_items(alloc: Global, items: Items<Ty>) -> Result<TypeList, Memory>
        ensures { IfOk result (λ list. list ≡ items) }
    {
        let listed = Arc::new(alloc, Listed::new(alloc, items)?)?;
        Ok(TypeList { listed })
    }

    /// A second handle of the same list. It copies no type, however long the list is. 50 `Memory`
    /// only if the list can have no more handles.
    pub fn share(&self) -> Result<TypeList, Memory>
        ensures { IfOk result (λ other. other ≡ self.now) }
    {
        let listed = Arc::try_clone(&self.listed)?;
        Ok(TypeList { listed })
    }

    /// The types, the first at place 0.
    pub fn as_slice(&self) -> &[Ty]
        ensures { result.now ≡ self.now }
    {
        self.listed.as_slice()
    }

    /// The types, each once, however often the list has it.
    pub fn distinct(&self) -> &[Ty]
        ensures same { HaveSame result.now self.now }
        ensures once { IsDistinct same_type result.now }
    {
        self.listed.distinct()
    }

    /// Returns whether the type is one of these, without comparing it with each.
    pub fn has(&self, ty: Ty) -> bool
        ensures { result ≡ list_any (λ other. same_type other ty) self.now }
    {
        self.listed.has(ty)
    }
}
