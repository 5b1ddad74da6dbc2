ghost use Rattle.flow_templates.specs.Changes.{ChangesAddUp};

use crate::{Domain, Template, TemplateKey};

/// A change of the templates that are kept.
#[derive(Debug, PartialEq, Eq, Drop)]
pub enum TemplateChange {
    Put(TemplateKey, Template),
    Withdraw(TemplateKey),
    /// Of a domain all options templates, or all others.
    WithdrawAll(Domain, bool),
}

/// A law: of a list of changes the last one counts, over what the earlier ones leave.
pub fn changes_add_up()
    ensures { ChangesAddUp }
{}
