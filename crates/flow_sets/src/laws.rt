//! Laws of the definitions.

ghost use Rattle.std.specs.Prelude.{◌≡◌, ◌+◌, ◌++◌, List, Ok, length, ℕ};
ghost use Rattle.flow_templates.specs.declared.template.Domain.{Domain};
ghost use Rattle.flow_templates.specs.Decoding.{Said};
ghost use Rattle.flow_templates.specs.Known.{Known, known_after};
ghost use Rattle.flow_sets.specs.Saying.{behind};
ghost use Rattle.flow_sets.specs.Sets.{set_count, sets_from, sets_said};
ghost use Rattle.flow_sets.specs.Spellings.{ReadsLengths, ReadsNumbers, ReadsRecords};

/// Sets behind whole ones say what they would say with what those taught, numbered on from them.
pub fn sets_follow_one_another()
    ensures { (domain : Domain) (known : Known) (a b : List ℕ) (said : Said) → sets_said domain known a ≡ Ok said
        → sets_said domain known (a ++ b) ≡ behind said (sets_from (length b) domain (known_after known said.changes) (1 + set_count a) b) }
{}

/// A record that is written as an exporter writes it, with no width that varies, takes its own octets, and has under each element the
/// number that was written there. A data set of such records says what their numbers say, in their order.
pub fn written_records_are_read_back()
    ensures length { ReadsLengths }
    ensures numbers { ReadsNumbers }
    ensures records { ReadsRecords }
{}
