ghost use Rattle.std.specs.Prelude.{◌≡◌, ◌⊎◌, IfOk};
ghost use Rattle.flow_templates.specs.Templates.{DefinesAccepted, IsDefined};

use acct_types::Addr;
use fixtures::same_hashing;
use flow_templates::{
    Domain, Staged, Stores, Template, TemplateFault, TemplateTurn, TemplateWhat,
    read_options_template, read_template,
};
use std::alloc::Global;
use std::test::Fail;

// id 300: source and destination address, one octet of no element that is read
const ADDRESSES: [u8; 16] = [1, 44, 0, 3, 0, 8, 0, 4, 0, 12, 0, 4, 3, 231, 0, 1];

// id 301: a scope of one field, then the sampler's id and interval
const SAMPLERS: [u8; 18] = [1, 45, 0, 4, 0, 8, 0, 8, 0, 1, 0, 48, 0, 1, 0, 50, 0, 4];

// id 256: source address, a variable field of enterprise 9, and a variable one of no element that is read
const VARIABLE: [u8; 20] = [
    1, 0, 0, 3, 0, 8, 0, 4, 128, 100, 255, 255, 0, 0, 0, 9, 3, 231, 255, 255,
];

const OPTIONS: bool = true;

const OTHERS: bool = false;

fn domain(id: u32) -> Domain
    ensures { result.version ≡ 9 }
{
    Domain {
        exporter: Addr::V4(0xc000_0201),
        version: 9,
        id,
    }
}

// The same source id of another exporter, and of another version.
fn other_exporter() -> Domain
    ensures { result.version ≡ 9 }
{
    Domain {
        exporter: Addr::V6(0xc000_0201),
        ..domain(1)
    }
}

fn other_version() -> Domain
    ensures { result.version ≡ 10 }
{
    Domain {
        version: 10,
        ..domain(1)
    }
}

fn defined(turn: TemplateTurn) -> Result<Template, Fail>
    ensures { (version : _) → DefinesAccepted version turn.what → IfOk result (λ template. IsDefined version template) }
{
    match turn.what {
        TemplateWhat::Defined(template) => Ok(template),
        _ => Err("no template".into()),
    }
}

fn addresses(alloc: Global, version: u16) -> Result<Template, Fail>
    requires { (version ≡ 9) ⊎ (version ≡ 10) }
    ensures { IfOk result (λ template. IsDefined version template) }
{
    let turn = read_template(alloc, version, &ADDRESSES).map_err(|_| "refused")?;
    defined(turn)
}

fn samplers(alloc: Global) -> Result<Template, Fail>
    ensures { IfOk result (λ template. IsDefined 9 template) }
{
    let turn = read_options_template(alloc, 9, &SAMPLERS).map_err(|_| "refused")?;
    defined(turn)
}

// An options template, or another.
fn accepted(alloc: Global, options: bool) -> Result<Template, Fail>
    ensures { IfOk result (λ template. IsDefined 9 template) }
{
    if options {
        samplers(alloc)
    } else {
        addresses(alloc, 9)
    }
}

fn kind_of(found: Option<&Template>) -> Option<bool> {
    match found {
        Some(template) => Some(template.options),
        None => None,
    }
}

#[test]
fn a_template_field_by_field(rt: HostRuntime) -> Result<(), Fail> {
    let mut octets = [0u8; 20];
    octets[..16].copy_from_slice(&ADDRESSES);
    let turn = read_template(rt.alloc(), 9, &octets).map_err(|_| "refused")?;
    assert_eq!(rt; turn.id, 300);
    assert_eq!(rt; turn.used, 16);
    let template = defined(turn)?;
    assert!(rt; !template.options && template.scope_fields == 0);
    assert_eq!(rt; template.fields.len(), 3);
    let [source, destination, other] = template.fields.as_slice() else {
        return Err("not three fields".into());
    };
    assert_eq!(rt;
        (source.enterprise, source.element, source.width),
        (None, 8, 4)
    );
    assert_eq!(rt; (destination.element, destination.width), (12, 4));
    assert_eq!(rt; (other.element, other.width), (999, 1));
    assert_eq!(rt; template.least_length(9), 9);
    Ok(())
}

#[test]
fn an_options_template_has_a_scope(rt: HostRuntime) -> Result<(), Fail> {
    let turn = read_options_template(rt.alloc(), 9, &SAMPLERS).map_err(|_| "refused")?;
    assert_eq!(rt; turn.id, 301);
    assert_eq!(rt; turn.used, 18);
    let template = defined(turn)?;
    assert!(rt; template.options && template.scope_fields == 1);
    let [scope, sampler, interval] = template.fields.as_slice() else {
        return Err("not three fields".into());
    };
    // the scope may be one octet wide, though element 8 as a field may not
    assert_eq!(rt; (scope.element, scope.width), (8, 1));
    assert_eq!(rt; (sampler.element, sampler.width), (48, 1));
    assert_eq!(rt; (interval.element, interval.width), (50, 4));
    Ok(())
}

#[test]
fn a_refusal_has_its_cause(rt: HostRuntime) {
    let templates: [(&[u8], TemplateFault); 10] = [
        (&[1, 44, 0], TemplateFault::TemplateCut),
        (&[0, 255, 0, 0], TemplateFault::TemplateId),
        (&[0, 0, 0, 0], TemplateFault::TemplateId),
        (&[1, 0, 0, 0], TemplateFault::TemplateEmpty),
        (&[1, 0, 0, 1, 0, 8, 0], TemplateFault::TemplateCut),
        (&[1, 0, 0, 2, 0, 8, 0, 5], TemplateFault::TemplateCut),
        (&[1, 0, 0, 1, 0, 8, 0, 5], TemplateFault::FieldWidth),
        (&[1, 0, 0, 1, 0, 8, 0, 0], TemplateFault::FieldWidth),
        (&[1, 0, 0, 1, 0, 1, 0, 9], TemplateFault::FieldWidth),
        (&[1, 0, 0, 1, 3, 231, 0, 0], TemplateFault::TemplateEmpty),
    ];
    for (octets, cause) in templates {
        let refused = read_template(rt.alloc(), 9, octets).err();
        assert_eq!(rt; refused, Some(cause));
    }
    let options: [(&[u8], TemplateFault); 7] = [
        (&[0, 255, 0, 0], TemplateFault::TemplateId),
        (&[1, 0, 0, 0, 0], TemplateFault::TemplateCut),
        (&[1, 0, 0, 0, 0, 0], TemplateFault::TemplateEmpty),
        (&[1, 0, 0, 2, 0, 2, 0, 1, 0, 4], TemplateFault::TemplateCut),
        (&[1, 0, 0, 4, 0, 4, 0, 1, 0, 4], TemplateFault::TemplateCut),
        (&[1, 0, 0, 0, 0, 4, 0, 48, 0, 9], TemplateFault::FieldWidth),
        (
            &[1, 0, 0, 4, 0, 0, 0, 34, 0, 0],
            TemplateFault::TemplateEmpty,
        ),
    ];
    for (octets, cause) in options {
        let refused = read_options_template(rt.alloc(), 9, octets).err();
        assert_eq!(rt; refused, Some(cause));
    }
}

#[test]
fn an_ipfix_refusal_has_its_cause(rt: HostRuntime) {
    let templates: [(&[u8], TemplateFault); 13] = [
        (&[1, 44, 0], TemplateFault::TemplateCut),
        (&[0, 255, 0, 1], TemplateFault::TemplateId),
        (&[0, 2, 0, 1], TemplateFault::TemplateId),
        (&[0, 3, 0, 0], TemplateFault::TemplateId),
        (&[0, 0, 0, 0], TemplateFault::TemplateId),
        (&[1, 0, 0, 1, 0, 8, 0], TemplateFault::TemplateCut),
        (
            &[1, 0, 0, 1, 128, 8, 0, 4, 0, 0, 0],
            TemplateFault::TemplateCut,
        ),
        (
            &[1, 0, 0, 2, 128, 8, 0, 4, 0, 0, 0, 9],
            TemplateFault::TemplateCut,
        ),
        (&[1, 0, 0, 1, 0, 8, 0, 5], TemplateFault::FieldWidth),
        (&[1, 0, 0, 1, 0, 1, 255, 255], TemplateFault::FieldWidth),
        (&[1, 0, 0, 1, 0, 85, 0, 9], TemplateFault::FieldWidth),
        (&[1, 0, 0, 1, 3, 231, 0, 0], TemplateFault::TemplateEmpty),
        (
            &[1, 0, 0, 1, 128, 8, 0, 0, 0, 0, 0, 9],
            TemplateFault::TemplateEmpty,
        ),
    ];
    for (octets, cause) in templates {
        let refused = read_template(rt.alloc(), 10, octets).err();
        assert_eq!(rt; refused, Some(cause));
    }
    let options: [(&[u8], TemplateFault); 10] = [
        (&[0, 3, 0, 1], TemplateFault::TemplateId),
        (&[0, 2, 0, 0], TemplateFault::TemplateId),
        (&[0, 255, 0, 0], TemplateFault::TemplateId),
        (&[1, 0, 0, 1], TemplateFault::TemplateCut),
        (&[1, 0, 0, 1, 0], TemplateFault::TemplateCut),
        (&[1, 0, 0, 1, 0, 0], TemplateFault::ScopeCount),
        (&[1, 0, 0, 1, 0, 2], TemplateFault::ScopeCount),
        (&[1, 0, 0, 1, 0, 1, 0, 8], TemplateFault::TemplateCut),
        (&[1, 0, 0, 1, 0, 1, 0, 8, 0, 1], TemplateFault::FieldWidth),
        (
            &[1, 0, 0, 1, 0, 1, 3, 231, 0, 0],
            TemplateFault::TemplateEmpty,
        ),
    ];
    for (octets, cause) in options {
        let refused = read_options_template(rt.alloc(), 10, octets).err();
        assert_eq!(rt; refused, Some(cause));
    }
}

#[test]
fn a_field_of_an_enterprise_has_its_number(rt: HostRuntime) -> Result<(), Fail> {
    let mut octets = [0u8; 22];
    octets[..20].copy_from_slice(&VARIABLE);
    let turn = read_template(rt.alloc(), 10, &octets).map_err(|_| "refused")?;
    assert_eq!(rt; turn.id, 256);
    assert_eq!(rt; turn.used, 20);
    let template = defined(turn)?;
    let [source, own, other] = template.fields.as_slice() else {
        return Err("not three fields".into());
    };
    assert_eq!(rt;
        (source.enterprise, source.element, source.width),
        (None, 8, 4)
    );
    assert_eq!(rt;
        (own.enterprise, own.element, own.width),
        (Some(9), 100, 65535)
    );
    assert_eq!(rt;
        (other.enterprise, other.element, other.width),
        (None, 999, 65535)
    );
    // each variable field has an octet at least
    assert_eq!(rt; template.least_length(10), 6);
    Ok(())
}

#[test]
fn a_scope_of_ipfix_is_counted_in_fields(rt: HostRuntime) -> Result<(), Fail> {
    let octets = [
        1u8, 1, 0, 3, 0, 1, 1, 46, 0, 4, 1, 49, 0, 4, 1, 50, 0, 4, 0, 0,
    ];
    let turn = read_options_template(rt.alloc(), 10, &octets).map_err(|_| "refused")?;
    assert_eq!(rt; turn.id, 257);
    assert_eq!(rt; turn.used, 18);
    let template = defined(turn)?;
    assert!(rt; template.options && template.scope_fields == 1);
    assert_eq!(rt; template.fields.len(), 3);
    Ok(())
}

#[test]
fn a_withdrawal_has_four_octets(rt: HostRuntime) -> Result<(), Fail> {
    let one = [1u8, 44, 0, 0, 0];
    let turn = read_template(rt.alloc(), 10, &one).map_err(|_| "refused")?;
    assert_eq!(rt; (turn.id, turn.used), (300, 4));
    assert!(rt; matches!(turn.what, TemplateWhat::Withdrawn));
    let turn = read_options_template(rt.alloc(), 10, &one).map_err(|_| "refused")?;
    assert_eq!(rt; (turn.id, turn.used), (300, 4));
    assert!(rt; matches!(turn.what, TemplateWhat::Withdrawn));
    let turn = read_template(rt.alloc(), 10, &[0, 2, 0, 0]).map_err(|_| "refused")?;
    assert_eq!(rt; turn.used, 4);
    assert!(rt; matches!(turn.what, TemplateWhat::AllWithdrawn));
    let turn = read_options_template(rt.alloc(), 10, &[0, 3, 0, 0]).map_err(|_| "refused")?;
    assert_eq!(rt; turn.used, 4);
    assert!(rt; matches!(turn.what, TemplateWhat::AllWithdrawn));
    Ok(())
}

#[test]
fn any_width_will_do_for_an_element_that_is_not_read(rt: HostRuntime) {
    // 65535 is a width as any other in version 9, and 305 an element of IPFIX alone
    for octets in [
        [1u8, 0, 0, 1, 3, 231, 255, 255],
        [1, 0, 0, 1, 1, 49, 0, 9],
        [1, 0, 0, 1, 0, 58, 0, 8],
    ] {
        assert!(rt; read_template(rt.alloc(), 9, &octets).is_ok());
    }
}

#[test]
fn an_id_is_one_of_its_domain(rt: HostRuntime) -> Result<(), Fail> {
    let mut stores = Stores::new(rt.alloc(), same_hashing()?);
    let store = &mut stores.templates;
    store.put(&domain(1), 300, accepted(rt.alloc(), OTHERS)?)?;
    store.put(&domain(2), 300, accepted(rt.alloc(), OPTIONS)?)?;
    assert_eq!(rt; kind_of(store.find(&domain(1), 300)), Some(OTHERS));
    assert_eq!(rt; kind_of(store.find(&domain(2), 300)), Some(OPTIONS));
    assert_eq!(rt; kind_of(store.find(&domain(1), 301)), None);
    store.withdraw_all(&domain(2), OTHERS);
    assert_eq!(rt; kind_of(store.find(&domain(2), 300)), Some(OPTIONS));
    store.withdraw_all(&domain(2), OPTIONS);
    assert_eq!(rt; kind_of(store.find(&domain(2), 300)), None);
    store.withdraw(&domain(1), 300);
    assert_eq!(rt; kind_of(store.find(&domain(1), 300)), None);
    Ok(())
}

#[test]
fn the_same_id_elsewhere_is_another_template(rt: HostRuntime) -> Result<(), Fail> {
    let mut stores = Stores::new(rt.alloc(), same_hashing()?);
    let store = &mut stores.templates;
    let other = addresses(rt.alloc(), 10)?;
    store.put(&other_version(), 300, other)?;
    store.put(&other_exporter(), 300, accepted(rt.alloc(), OPTIONS)?)?;
    assert_eq!(rt; kind_of(store.find(&domain(1), 300)), None);
    store.put(&domain(1), 300, accepted(rt.alloc(), OTHERS)?)?;
    assert_eq!(rt; kind_of(store.find(&other_exporter(), 300)), Some(OPTIONS));
    store.withdraw(&other_version(), 300);
    store.withdraw_all(&other_exporter(), OPTIONS);
    assert_eq!(rt; kind_of(store.find(&other_version(), 300)), None);
    assert_eq!(rt; kind_of(store.find(&other_exporter(), 300)), None);
    assert_eq!(rt; kind_of(store.find(&domain(1), 300)), Some(OTHERS));
    Ok(())
}

#[test]
fn an_id_of_one_kind_gives_way_to_the_other(rt: HostRuntime) -> Result<(), Fail> {
    let mut stores = Stores::new(rt.alloc(), same_hashing()?);
    let store = &mut stores.templates;
    store.put(&domain(1), 300, accepted(rt.alloc(), OTHERS)?)?;
    store.put(&domain(1), 301, accepted(rt.alloc(), OTHERS)?)?;
    store.put(&domain(1), 300, accepted(rt.alloc(), OPTIONS)?)?;
    assert_eq!(rt; kind_of(store.find(&domain(1), 300)), Some(OPTIONS));
    store.withdraw_all(&domain(1), OTHERS);
    assert_eq!(rt; kind_of(store.find(&domain(1), 300)), Some(OPTIONS));
    assert_eq!(rt; kind_of(store.find(&domain(1), 301)), None);
    store.withdraw_all(&domain(1), OPTIONS);
    assert_eq!(rt; kind_of(store.find(&domain(1), 300)), None);
    Ok(())
}

// The templates with the ids 256 to 355, of which the even ones are in domain 0 and the odd ones in domain 1.
fn put_many(stores: &mut Stores, alloc: Global) -> Result<(), Fail> {
    let mut staged = Staged::new(alloc, same_hashing()?);
    for id in 256..356 {
        staged.put(&domain(u32::from(id % 2)), id, accepted(alloc, OTHERS)?)?;
    }
    staged.commit(stores)?;
    Ok(())
}

fn count_of(stores: &Stores, number: u32) -> u32 {
    let mut count = 0u32;
    for id in 256..356 {
        if stores.templates.find(&domain(number), id).is_some() {
            count = count.saturating_add(1);
        }
    }
    count
}

#[test]
fn many_templates_of_a_domain_are_withdrawn_and_put_again(rt: HostRuntime) -> Result<(), Fail> {
    let mut stores = Stores::new(rt.alloc(), same_hashing()?);
    put_many(&mut stores, rt.alloc())?;
    stores.templates.withdraw(&domain(0), 300);
    stores.templates.withdraw_all(&domain(1), OTHERS);
    assert_eq!(rt; count_of(&stores, 0), 49);
    assert_eq!(rt; count_of(&stores, 1), 0);
    put_many(&mut stores, rt.alloc())?;
    assert_eq!(rt; count_of(&stores, 0), 50);
    assert_eq!(rt; count_of(&stores, 1), 50);
    Ok(())
}

// A change of the template with this id in the domain with this number, or of all of a kind there.
#[derive(Clone, Copy)]
enum Given {
    Put(u32, u16, bool),
    Withdraw(u32, u16),
    WithdrawAll(u32, bool),
}

fn stage(staged: &mut Staged, alloc: Global, change: Given) -> Result<(), Fail> {
    match change {
        Given::Put(number, id, options) => {
            let template = accepted(alloc, options)?;
            staged.put(&domain(number), id, template)?;
        }
        Given::Withdraw(number, id) => staged.withdraw(&domain(number), id)?,
        Given::WithdrawAll(number, options) => staged.withdraw_all(&domain(number), options)?,
    }
    Ok(())
}

fn kept_in(stores: &Stores) -> Option<bool> {
    kind_of(stores.templates.find(&domain(1), 300))
}

// The kind of the template 300 that is found in domain 1 after the changes of a datagram, where one of a kind was kept: the same
// while they are staged and once they are committed, and the store keeps what it had until then.
fn left_by(alloc: Global, kept: Option<bool>, changes: &[Given]) -> Result<Option<bool>, Fail> {
    let mut stores = Stores::new(alloc, same_hashing()?);
    if let Some(options) = kept {
        let template = accepted(alloc, options)?;
        stores.templates.put(&domain(1), 300, template)?;
    }
    let mut staged = Staged::new(alloc, same_hashing()?);
    for change in changes {
        stage(&mut staged, alloc, *change)?;
    }
    let found = kind_of(staged.find(&stores, &domain(1), 300));
    let waiting = kept_in(&stores);
    staged.commit(&mut stores)?;
    let left = kept_in(&stores);
    if waiting != kept || found != left {
        return Err("a change came before the commit, or another with it".into());
    }
    Ok(left)
}

#[test]
fn staged_changes_wait_for_the_commit(rt: HostRuntime) -> Result<(), Fail> {
    let changes = [
        Given::Put(1, 300, OTHERS),
        Given::Put(1, 301, OPTIONS),
        Given::Withdraw(2, 300),
        Given::WithdrawAll(1, OPTIONS),
    ];
    assert_eq!(rt; left_by(rt.alloc(), None, &changes)?, Some(OTHERS));
    let changes = [
        Given::Put(1, 300, OPTIONS),
        Given::Put(1, 301, OTHERS),
        Given::Withdraw(2, 300),
        Given::WithdrawAll(1, OPTIONS),
    ];
    assert_eq!(rt; left_by(rt.alloc(), None, &changes)?, None);
    Ok(())
}

#[test]
fn a_staged_withdrawal_hides_what_is_kept_and_staged(rt: HostRuntime) -> Result<(), Fail> {
    let changes = [
        Given::Put(1, 301, OTHERS),
        Given::Put(1, 302, OPTIONS),
        Given::Withdraw(1, 301),
        Given::WithdrawAll(1, OTHERS),
    ];
    let before = changes.get(..3).ok_or("no fourth change")?;
    assert_eq!(rt; left_by(rt.alloc(), Some(OTHERS), before)?, Some(OTHERS));
    assert_eq!(rt; left_by(rt.alloc(), Some(OTHERS), &changes)?, None);
    assert_eq!(rt;
        left_by(rt.alloc(), Some(OPTIONS), &changes)?,
        Some(OPTIONS)
    );
    let changes = [Given::Put(1, 300, OPTIONS), Given::Withdraw(1, 300)];
    assert_eq!(rt; left_by(rt.alloc(), Some(OTHERS), &changes)?, None);
    Ok(())
}

#[test]
fn a_later_change_of_a_template_counts(rt: HostRuntime) -> Result<(), Fail> {
    let put = Given::Put(1, 300, OTHERS);
    let put_options = Given::Put(1, 300, OPTIONS);
    let withdraw = Given::Withdraw(1, 300);
    assert_eq!(rt; left_by(rt.alloc(), Some(OPTIONS), &[])?, Some(OPTIONS));
    assert_eq!(rt; left_by(rt.alloc(), None, &[put])?, Some(OTHERS));
    assert_eq!(rt;
        left_by(rt.alloc(), None, &[put, put_options])?,
        Some(OPTIONS)
    );
    assert_eq!(rt; left_by(rt.alloc(), None, &[put_options, withdraw])?, None);
    assert_eq!(rt;
        left_by(rt.alloc(), Some(OTHERS), &[withdraw, put_options])?,
        Some(OPTIONS)
    );
    Ok(())
}

#[test]
fn a_template_goes_with_all_of_its_kind(rt: HostRuntime) -> Result<(), Fail> {
    let put = Given::Put(1, 300, OTHERS);
    let all_others = Given::WithdrawAll(1, OTHERS);
    let all_options = Given::WithdrawAll(1, OPTIONS);
    assert_eq!(rt; left_by(rt.alloc(), Some(OPTIONS), &[all_options])?, None);
    assert_eq!(rt;
        left_by(rt.alloc(), Some(OPTIONS), &[all_others])?,
        Some(OPTIONS)
    );
    assert_eq!(rt; left_by(rt.alloc(), None, &[put, all_others])?, None);
    assert_eq!(rt;
        left_by(rt.alloc(), None, &[put, all_options])?,
        Some(OTHERS)
    );
    assert_eq!(rt;
        left_by(rt.alloc(), Some(OTHERS), &[all_others, put])?,
        Some(OTHERS)
    );
    Ok(())
}

#[test]
fn a_template_of_the_other_kind_is_another(rt: HostRuntime) -> Result<(), Fail> {
    let put = Given::Put(1, 300, OPTIONS);
    let all_others = Given::WithdrawAll(1, OTHERS);
    let all_options = Given::WithdrawAll(1, OPTIONS);
    assert_eq!(rt;
        left_by(rt.alloc(), Some(OTHERS), &[put, all_others])?,
        Some(OPTIONS)
    );
    assert_eq!(rt;
        left_by(rt.alloc(), Some(OTHERS), &[put, all_options])?,
        None
    );
    assert_eq!(rt;
        left_by(rt.alloc(), None, &[all_options, put, all_options])?,
        None
    );
    assert_eq!(rt;
        left_by(rt.alloc(), None, &[all_others, put, all_others])?,
        Some(OPTIONS)
    );
    Ok(())
}

#[test]
fn a_change_elsewhere_is_none_here(rt: HostRuntime) -> Result<(), Fail> {
    let put = Given::Put(2, 300, OPTIONS);
    let withdraw = Given::Withdraw(2, 300);
    let all_others = Given::WithdrawAll(2, OTHERS);
    assert_eq!(rt;
        left_by(rt.alloc(), Some(OTHERS), &[put, withdraw])?,
        Some(OTHERS)
    );
    assert_eq!(rt;
        left_by(rt.alloc(), Some(OTHERS), &[all_others])?,
        Some(OTHERS)
    );
    Ok(())
}

#[test]
fn a_rate_is_one_of_its_domain_and_sampler(rt: HostRuntime) -> Result<(), Fail> {
    let mut stores = Stores::new(rt.alloc(), same_hashing()?);
    let store = &mut stores.options;
    store.learn(&domain(1), Some(7), 100)?;
    store.learn(&domain(1), Some(0), 200)?;
    store.learn(&domain(1), None, 300)?;
    store.learn(&domain(1), Some(7), 400)?;
    assert_eq!(rt; store.rate(&domain(1), Some(7)), Some(400));
    assert_eq!(rt; store.rate(&domain(1), Some(0)), Some(200));
    assert_eq!(rt; store.rate(&domain(1), None), Some(300));
    assert_eq!(rt; store.rate(&domain(1), Some(8)), None);
    assert_eq!(rt; store.rate(&domain(2), Some(7)), None);
    assert_eq!(rt; store.rate(&other_exporter(), Some(7)), None);
    assert_eq!(rt; store.rate(&other_version(), Some(7)), None);
    Ok(())
}

#[test]
fn a_datagram_that_changes_nothing_has_nothing_staged(rt: HostRuntime) -> Result<(), Fail> {
    let mut staged = Staged::new(rt.alloc(), same_hashing()?);
    assert!(rt; staged.is_empty());
    staged.learn(&domain(1), None, 200)?;
    assert!(rt; !staged.is_empty());
    Ok(())
}

// The rate of a sampler of domain 1 that is found after the rates of a datagram, each with its domain's number, where one was kept:
// the same while they are staged and once they are committed, and the store keeps what it had until then.
fn rate_left_by(
    alloc: Global,
    sampler: Option<u64>,
    kept: Option<u32>,
    lessons: &[(u32, Option<u64>, u32)],
) -> Result<Option<u32>, Fail> {
    let mut stores = Stores::new(alloc, same_hashing()?);
    if let Some(rate) = kept {
        stores.options.learn(&domain(1), sampler, rate)?;
    }
    let mut staged = Staged::new(alloc, same_hashing()?);
    for (number, from, rate) in lessons {
        staged.learn(&domain(*number), *from, *rate)?;
    }
    let found = staged.rate(&stores, &domain(1), sampler);
    let waiting = stores.options.rate(&domain(1), sampler);
    staged.commit(&mut stores)?;
    let left = stores.options.rate(&domain(1), sampler);
    if waiting != kept || found != left {
        return Err("a rate came before the commit, or another with it".into());
    }
    Ok(left)
}

#[test]
fn staged_rates_wait_for_the_commit(rt: HostRuntime) -> Result<(), Fail> {
    let lessons = [
        (1, None, 200),
        (1, Some(7), 300),
        (1, Some(7), 400),
        (2, Some(8), 500),
    ];
    assert_eq!(rt;
        rate_left_by(rt.alloc(), Some(7), Some(100), &lessons)?,
        Some(400)
    );
    assert_eq!(rt; rate_left_by(rt.alloc(), None, None, &lessons)?, Some(200));
    assert_eq!(rt; rate_left_by(rt.alloc(), Some(8), None, &lessons)?, None);
    assert_eq!(rt;
        rate_left_by(rt.alloc(), Some(9), Some(100), &lessons)?,
        Some(100)
    );
    Ok(())
}

#[test]
fn a_commit_has_templates_and_rates(rt: HostRuntime) -> Result<(), Fail> {
    let mut stores = Stores::new(rt.alloc(), same_hashing()?);
    let mut staged = Staged::new(rt.alloc(), same_hashing()?);
    stage(&mut staged, rt.alloc(), Given::Put(1, 300, OTHERS))?;
    staged.learn(&domain(1), None, 200)?;
    staged.commit(&mut stores)?;
    assert_eq!(rt; kept_in(&stores), Some(OTHERS));
    assert_eq!(rt; stores.options.rate(&domain(1), None), Some(200));
    Ok(())
}
