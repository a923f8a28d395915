//! The results of the first three passes of the checks.
use crate::name_set::NameSet;
use crate::sorted::Sorted;
use crate::starts::Starts;
use crate::unique_names::CaseAt;
use tp_config::config::Config;
use tp_value::types::Types;

#[derive(Drop)]
pub struct Prepared<'m> {
    pub case: CaseAt<'m>,
    pub sorted: Sorted<'m>,
    pub types: Types,
    /// `mtc`, the components that are created, and the test system interface, in this order, with
    /// the connections and mappings of the setup statements.
    pub config: Config,
    /// The component variables, in the order of the text. The number of a variable's component is
    /// one more than that of its name.
    pub variables: NameSet<'m>,
    pub starts: Starts,
}
