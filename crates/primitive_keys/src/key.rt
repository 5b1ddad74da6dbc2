ghost use Rattle.std.specs.Prelude.{◌≡◌, true, IfOk, IfSome};
ghost use Rattle.std.specs.Option.{option_copied, option_map};
ghost use Rattle.acct_types.specs.StandingRoutes.{route_ref_view};
ghost use Rattle.pretag_map.specs.Labels.{is_label};
ghost use Rattle.primitive_keys.specs.Keys.{key_cells_of};

use crate::sources::Sources;
use acct_types::{AsFrom, FlowRecord, Key, NoMemory, Primitives, RouteRef, Text};
use pretag_map::Tags;
use std::alloc::Global;

/// The key of a record: a cell for each column that is asked for, in their order. `from` says where its routing parts come
/// from, `src` and `dst` are the routes to its addresses, `label` is that of its tags, and `window` the first moment of its
/// window, in milliseconds.
#[tactic(auto, unfolding(crate::specs::Keys::key_cells_of))]
pub fn key_of(
    alloc: Global,
    p: &Primitives,
    r: &FlowRecord,
    from: AsFrom,
    src: Option<&RouteRef<'_>>,
    dst: Option<&RouteRef<'_>>,
    tags: &Tags,
    label: Option<&Text>,
    window: u64,
) -> Result<Key, NoMemory>
    requires { IfSome label (λ words. is_label words.now ≡ true) }
    ensures { IfOk result (λ key. key ≡ key_cells_of p.now r.now from (option_map route_ref_view (option_copied src.entry)) (option_map route_ref_view (option_copied dst.entry))
        tags.now (option_copied label.entry) window) }
{
    let sources = Sources {
        alloc,
        record: r,
        from,
        src,
        dst,
        tags,
        label,
        window,
    };
    let mut key = Key::new(alloc);
    let mut rest = *p;
    while let Some((column, others)) = rest.split_first() {
        sources.push(&mut key, column)?;
        rest = others;
    }
    Ok(key)
}
