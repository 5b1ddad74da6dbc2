//! Laws of the definitions.

ghost use Rattle.std.specs.Prelude.{◌≡◌, ◌↔◌, ◌++◌, ◌∷◌, ℕ, List as Sequence, None, Some, reverse};
ghost use Rattle.flow_templates.specs.Changes.{after_all, StagedChanges};
ghost use Rattle.flow_templates.specs.declared.change.TemplateChange.{TemplateChange};
ghost use Rattle.flow_templates.specs.declared.change.TemplateChange.TheVariants as change;
ghost use Rattle.flow_templates.specs.declared.rate.LearnedRate.{LearnedRate};
ghost use Rattle.flow_templates.specs.declared.rate.RateKey.{RateKey};
ghost use Rattle.flow_templates.specs.declared.template.Template.{Template};
ghost use Rattle.flow_templates.specs.declared.template.TemplateKey.{TemplateKey};
ghost use Rattle.flow_templates.specs.Known.{known_after, rate_after};
ghost use Rattle.flow_decode.specs.History.{IsLearnedLast, IsPutLast, Told, in_force, known_by, learned_last, none_of, puts, teaches};

/// Going backwards through changes finds the template that making them one after another leaves, and likewise the rate.
pub fn backwards_is_forwards()
    ensures templates { (changes earlier : Sequence TemplateChange) (key : TemplateKey)
        → in_force (reverse changes ++ earlier) key ≡ after_all changes key (in_force earlier key) }
    ensures rates { (rates earlier : Sequence LearnedRate) (key : RateKey)
        → learned_last (reverse rates ++ earlier) key ≡ rate_after rates key (learned_last earlier key) }
{}

/// A template is in force exactly where, going backwards, a change puts it before any other puts or withdraws its id or withdraws
/// all of its kind in its domain. Nothing is in force where nothing was put behind a withdrawal of the id, or at all.
pub fn the_first_change_met_decides()
    ensures put { (changes : Sequence TemplateChange) (key : TemplateKey) (template : Template)
        → (in_force changes key ≡ Some template) ↔ IsPutLast changes key template }
    ensures withdrawn { (newer earlier : Sequence TemplateChange) (key : TemplateKey) → none_of (puts key) newer
        → in_force (newer ++ change.Withdraw key ∷ earlier) key ≡ None }
    ensures nothing { (changes : Sequence TemplateChange) (key : TemplateKey) → none_of (puts key) changes → in_force changes key ≡ None }
{}

/// A rate is the learned one exactly where, going backwards, it is the first of its domain and sampler. There is none exactly where
/// none was learned of them.
pub fn the_first_rate_met_counts()
    ensures learned { (rates : Sequence LearnedRate) (key : RateKey) (rate : ℕ)
        → (learned_last rates key ≡ Some rate) ↔ IsLearnedLast rates key rate }
    ensures nothing { (rates : Sequence LearnedRate) (key : RateKey) → (learned_last rates key ≡ None) ↔ none_of (teaches key) rates }
{}

/// Within a datagram one goes backwards too: what its parts so far teach comes before what earlier datagrams told.
pub fn parts_of_a_datagram_come_first()
    ensures { (told : Told) (changes : StagedChanges) → known_after (known_by told) changes
        ≡ known_by (record { templates = reverse changes.templates ++ told.templates; rates = reverse changes.rates ++ told.rates }) }
{}
