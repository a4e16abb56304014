//! Entries of two descriptions that cannot both be there.

ghost use Rattle.std.specs.Prelude.{◌≡◌, false, find, map, None, Ok, Err};
ghost use Rattle.std.specs.List.{filter, list_any};
ghost use Rattle.update_spec.specs.Planning.{in_one_table, meet, conflict, conflict_or, conflicting};
ghost use Rattle.update_joined.specs.JoinedEntries.{item_of, is_added, have_one_title};
ghost use Rattle.update_joined.specs.PrefixKeys.{IsKnown};

use crate::entry::PlanEntry;
use crate::equal::same_title;
use crate::known_entries::KnownEntries;
use crate::prefix_index::may_meet;
use net_model::{Name, same_family};
use update_spec::PlanFault;
use v6_addr::Prefix;

/// The titles of both descriptions.
#[derive(Drop)]
pub(crate) struct BothTitles<'a> {
    /// Those of the old one.
    pub before: &'a [Name],
    /// Those of the new one.
    pub after: &'a [Name],
}

/// Whether one prefix holds the other's first address, and so the other.
fn meet(p: &Prefix, q: &Prefix) -> bool
    ensures { result ≡ meet p.now q.now }
{
    p.holds(q.value()) || q.holds(p.value())
}

/// Whether two entries stand in one table.
fn are_in_one_table(titles: &BothTitles<'_>, a: &PlanEntry, b: &PlanEntry) -> bool
    ensures { result ≡ in_one_table (item_of titles.now.before.now a.now) (item_of titles.now.after.now b.now) }
{
    a.node == b.node && a.table == b.table && same_family(a.family, b.family)
}

/// Whether an old entry and a new one are in conflict.
fn are_in_conflict(titles: &BothTitles<'_>, a: &PlanEntry, b: &PlanEntry) -> bool
    ensures { result ≡ conflict (item_of titles.now.before.now a.now) (item_of titles.now.after.now b.now) }
{
    !(a.kept && b.kept)
        && ((are_in_one_table(titles, a, b) && meet(&a.prefix, &b.prefix))
            || same_title(titles.before, titles.after, a.title, b.title))
}

/// Refuses the first of the new entries that is in conflict with the old one.
fn refuse_conflict_among(
    titles: &BothTitles<'_>,
    a: &PlanEntry,
    news: &[PlanEntry],
) -> Result<(), PlanFault>
    ensures { result ≡ conflict_or (item_of titles.now.before.now a.now)
        (find (conflict (item_of titles.now.before.now a.now)) (map (item_of titles.now.after.now) news.now))
        (Ok tt) }
{
    let mut rest = news;
    while let [b, more @ ..] = rest {
        if are_in_conflict(titles, a, b) {
            return Err(PlanFault::Conflict {
                before: a.id,
                after: b.id,
            });
        }
        rest = more;
    }
    Ok(())
}

/// Whether the title of one of the new entries is that of the old one.
fn has_title(titles: &BothTitles<'_>, a: &PlanEntry, titled: &[PlanEntry]) -> bool
    ensures { result ≡ list_any (have_one_title titles.now.before.now titles.now.after.now a.now) titled.now }
{
    let mut rest = titled;
    while let [b, more @ ..] = rest {
        if same_title(titles.before, titles.after, a.title, b.title) {
            return true;
        }
        rest = more;
    }
    false
}

/// Whether the old entry has a title, and that of one of the new entries is the same.
fn shares_title(titles: &BothTitles<'_>, a: &PlanEntry, titled: &[PlanEntry]) -> bool
    ensures { result ≡ list_any (have_one_title titles.now.before.now titles.now.after.now a.now) titled.now }
{
    match a.title {
        None => false,
        Some(_) => has_title(titles, a, titled),
    }
}

/// Whether the old entry meets one of the new entries, or has the title of one: where it says no,
/// none is in conflict with the old one.
fn may_conflict(titles: &BothTitles<'_>, a: &PlanEntry, news: &KnownEntries) -> bool
    requires { IsKnown news.now }
    ensures { result ≡ false → find (conflict (item_of titles.now.before.now a.now))
        (map (item_of titles.now.after.now) news.now.entries.items) ≡ None }
{
    if may_meet(&news.index, a) {
        return true;
    }
    shares_title(titles, a, news.titled.as_slice())
}

/// Refuses the first of the new entries that is in conflict with the old one. They are gone through
/// only where there is one.
fn refuse_known_conflict(
    titles: &BothTitles<'_>,
    a: &PlanEntry,
    news: &KnownEntries,
) -> Result<(), PlanFault>
    requires { IsKnown news.now }
    ensures { result ≡ conflict_or (item_of titles.now.before.now a.now)
        (find (conflict (item_of titles.now.before.now a.now))
        (map (item_of titles.now.after.now) news.now.entries.items)) (Ok tt) }
{
    if !may_conflict(titles, a, news) {
        return Ok(());
    }
    refuse_conflict_among(titles, a, news.entries.as_slice())
}

/// Refuses the first of the new entries that is in conflict with the old one. Of two kept entries
/// none is, so a kept one is compared with those alone that are added.
fn refuse_conflict_of(
    titles: &BothTitles<'_>,
    a: &PlanEntry,
    news: &KnownEntries,
    added: &KnownEntries,
) -> Result<(), PlanFault>
    requires news { IsKnown news.now }
    requires added { IsKnown added.now }
    requires those { added.now.entries.items ≡ filter is_added news.now.entries.items }
    ensures { result ≡ conflict_or (item_of titles.now.before.now a.now)
        (find (conflict (item_of titles.now.before.now a.now))
        (map (item_of titles.now.after.now) news.now.entries.items)) (Ok tt) }
{
    if a.kept {
        refuse_known_conflict(titles, a, added)
    } else {
        refuse_known_conflict(titles, a, news)
    }
}

/// Refuses the first old entry that is in conflict with a new one, and the first such new one.
pub(crate) fn refuse_conflict(
    titles: &BothTitles<'_>,
    olds: &[PlanEntry],
    news: &KnownEntries,
    added: &KnownEntries,
) -> Result<(), PlanFault>
    requires news { IsKnown news.now }
    requires added { IsKnown added.now }
    requires those { added.now.entries.items ≡ filter is_added news.now.entries.items }
    ensures { result ≡ conflicting (map (item_of titles.now.after.now) news.now.entries.items)
        (map (item_of titles.now.before.now) olds.now) }
{
    let mut rest = olds;
    while let [a, more @ ..] = rest {
        if let Err(why) = refuse_conflict_of(titles, a, news, added) {
            return Err(why);
        }
        rest = more;
    }
    Ok(())
}
