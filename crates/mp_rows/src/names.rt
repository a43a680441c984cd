//! The names of a log, which stand in proofs alone: nothing that runs reads one back.
ghost use Rattle.std.specs.Prelude.{◌≡◌};
ghost use Rattle.mp_names.specs.Logs.{empty_log};
ghost use Rattle.mp_rows.specs.Lists.{with_name, with_names};

use crate::lists::LogList;
use crate::name_list::NameList;
use crate::new_names::NewNames;
use mp_names::Name;
use std::marker::Model;
use std::snapshot::Snapshot;

/// The names of a log, as they follow from those before: there are none, or one more came, or several at once. A value of it stands on the
/// stack for a moment; a log keeps a snapshot, which has no bytes. Contracts see the five lists, a `Log` of the protocol.
#[cycle(names)]
#[derive(Drop)]
pub(crate) struct LogNames {
    link: Link,
}

#[cycle(names)]
#[derive(Drop)]
enum Link {
    Start,
    More(Snapshot<LogNames>, LogList, Name),
    Several(Snapshot<LogNames>, LogList, Snapshot<NameList>, Name),
}

impl Model for LogNames {
    ghost use Rattle.mp_names.specs.Logs.{Log};

    ghost Value = { Log };

    ghost use Rattle.mp_names.specs.Laws.{log_size};
    ghost use Rattle.mp_rows.specs.Links.{names_of};

    ghost view = { λ names. names_of names.link };

    ghost invariant = { λ _. Unit {0} };

    ghost size = { log_size };

    ghost use Rattle.mp_rows.specs.Falls.{falls};

    ghost size_decreases = { λ names h. falls names.link };
}

/// No names.
pub(crate) fn no_names() -> Snapshot<LogNames>
    ensures { result.value ≡ empty_log }
{
    Snapshot::of(&LogNames { link: Link::Start })
}

/// These names, and one more at the end of a list.
pub(crate) fn one_more(before: Snapshot<LogNames>, list: LogList, name: Name) -> Snapshot<LogNames>
    ensures { result.value ≡ with_name list name before.value }
{
    let link = Link::More(before, list, name);
    Snapshot::of(&LogNames { link })
}

/// These names, and several more at the end of a list.
pub(crate) fn several_more(
    before: Snapshot<LogNames>,
    list: LogList,
    names: NewNames,
) -> Snapshot<LogNames>
    ensures { result.value ≡ with_names list names before.value }
{
    let link = Link::Several(before, list, names.before, names.last);
    Snapshot::of(&LogNames { link })
}
