//! What the stages' recursions call: what one stage sends, whose entry is appended, and boxes.

ghost use Rattle.std.specs.Prelude.{◌≡◌, [], ◌∷◌, IfOk, OnOk, IfSome, Some, None, false};
ghost use Rattle.std.specs.FinMap as map;
ghost use Rattle.link_change.specs.Rows.{is_empty_map};
ghost use Rattle.link_change.specs.Changes.{IsSent};
ghost use Rattle.journal_text.specs.declared.entry.Entry.TheVariants as entries;
ghost use Rattle.journal_text.specs.Journals.{with_entries};
ghost use Rattle.journal_text.specs.Values.{sent_entries};
ghost use Rattle.loss_chain.specs.Covering.{PassesOn, StaysApart, DeletesOn, IsLeastRow};
ghost use Rattle.loss_chain.specs.Steps.{live_after};
ghost use Rattle.loss_chain.specs.Stages.{stage_above};

use crate::deletion::Deletion;
use crate::live::Live;
use crate::stage::Stage;
use addr4::{Memory, Prefix, Row, Texts};
use journal_text::{Entry, Journal, Link, Valued};
use link_change::Change;
use std::alloc::{AllocError, Global};
use std::mem;

// The top takes a row in, or gives one up.
fn set_live<R: Row, F: Texts>(
    live: &mut Live<R, F>,
    p: Prefix<F>,
    new: Option<R>,
) -> Result<Option<Change<R, Prefix<F>>>, Memory>
    ensures sent { IfOk result (IsSent (map.get live.old) (map.get live.new) p) }
    ensures live { OnOk result (live.new ≡ live_after live.old p new) }
    ensures after { IfOk result (λ sent. IfSome sent (λ change. change.after ≡ new)) }
{
    match new {
        Some(row) => live.set(p, row),
        None => Ok(live.unset(p)),
    }
}

/// The same, with its entry on the link out of the top.
pub(crate) fn feed_top<F: Texts, R: Valued<F>>(
    live: &mut Live<R, F>,
    out: Link,
    p: Prefix<F>,
    new: Option<R>,
    journal: &mut Journal<F>,
) -> Result<Option<Change<R, Prefix<F>>>, Memory>
    ensures sent { IfOk result (IsSent (map.get live.old) (map.get live.new) p) }
    ensures live { OnOk result (live.new ≡ live_after live.old p new) }
    ensures after { IfOk result (λ sent. IfSome sent (λ change. change.after ≡ new)) }
    ensures lines { IfOk result (λ sent. journal.new ≡ with_entries journal.old (sent_entries R.value out sent)) }
{
    let sent = set_live(live, p, new)?;
    journal.push_sent(out, &sent)?;
    Ok(sent)
}

/// A change from above goes on below a deletion stage, with its entry on the link out of it.
#[inline(never)]
pub(crate) fn pass_on<F: Texts, R: Valued<F>>(
    deletion: &mut Deletion<R, F>,
    out: Link,
    change: Change<R, Prefix<F>>,
    journal: &mut Journal<F>,
) -> Result<Option<Change<R, Prefix<F>>>, Memory>
    ensures law { IfOk result (PassesOn deletion.old.rows deletion.new.rows change) }
    ensures apart { StaysApart deletion.old.rows deletion.new.rows change }
    ensures rows { deletion.new.rows ≡ map.remove deletion.old.rows change.prefix }
    ensures after { IfOk result (λ sent. IfSome sent (λ below. below.after ≡ change.after)) }
    ensures number { deletion.new.number ≡ deletion.old.number }
    ensures lines { IfOk result (λ sent. journal.new ≡ with_entries journal.old (sent_entries R.value out sent)) }
{
    let sent = deletion.take_in(change);
    journal.push_sent(out, &sent)?;
    Ok(sent)
}

/// The least row of a deletion stage goes, with the entry of its delete on the link out of it.
pub(crate) fn sweep<F: Texts, R: Valued<F>>(
    deletion: &mut Deletion<R, F>,
    out: Link,
    journal: &mut Journal<F>,
) -> Result<Change<R, Prefix<F>>, Memory>
    requires { is_empty_map deletion.old.rows ≡ false }
    ensures law { IfOk result (DeletesOn deletion.old.rows deletion.new.rows) }
    ensures least { IfOk result (λ sent. IsLeastRow (map.get deletion.old.rows) sent.prefix sent.before) }
    ensures rows { IfOk result (λ sent. deletion.new.rows ≡ map.remove deletion.old.rows sent.prefix) }
    ensures after { IfOk result (λ sent. sent.after ≡ None) }
    ensures number { deletion.new.number ≡ deletion.old.number }
    ensures lines { IfOk result (λ sent. journal.new ≡ with_entries journal.old (sent_entries R.value out (Some sent))) }
{
    let Some(change) = deletion.unit() else {
        unreachable!();
    };
    journal.push_change(out, &change)?;
    Ok(change)
}

/// A new top in a box, out of which this link begins.
pub(crate) fn fresh_top<R: Row, F: Texts>(
    alloc: Global,
    link: Link,
    journal: &mut Journal<F>,
) -> Result<Box<Stage<R, F>>, Memory>
    ensures top { IfOk result (λ top. top.value ≡ Stage.Top map.empty) }
    ensures lines { OnOk result (journal.new ≡ with_entries journal.old (entries.Begin link ∷ [])) }
{
    journal.push_entry(Entry::Begin(link))?;
    let top = Box::new(alloc, Stage::Top(Live::new(alloc))).map_err(AllocError::from)?;
    Ok(top)
}

/// A deletion stage takes the place of a top, and holds another one.
pub(crate) fn splice_in<R: Row, F: Texts>(
    stage: &mut Stage<R, F>,
    deletion: Deletion<R, F>,
    top: Box<Stage<R, F>>,
)
    ensures { stage.new ≡ Stage.Deletion deletion top }
{
    drop(mem::replace(stage, Stage::Deletion(deletion, top)));
}

// The stage above a deletion stage, which is dropped.
fn above<R: Row, F: Texts>(stage: Stage<R, F>) -> Stage<R, F>
    ensures { result ≡ stage_above stage }
{
    match stage {
        Stage::Deletion(_, upper) => Box::into_inner(upper),
        other => other,
    }
}

/// A deletion stage gives its place to the stage above it, and is dropped.
pub(crate) fn splice_out<R: Row, F: Texts>(stage: &mut Stage<R, F>, alloc: Global)
    ensures { stage.new ≡ stage_above stage.old }
{
    let lowest = mem::replace(stage, Stage::Top(Live::new(alloc)));
    drop(mem::replace(stage, above(lowest)));
}
