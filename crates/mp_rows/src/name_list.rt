//! Names in order, which stand in proofs alone: nothing that runs reads one back.
ghost use Rattle.std.specs.Prelude.{◌≡◌, ◌∷◌, ◌++◌, []};

use mp_names::Name;
use std::marker::Model;
use std::snapshot::Snapshot;

/// Names in order, as they follow from those before: there are none, or one more came.
#[cycle(list)]
#[derive(Drop)]
pub(crate) struct NameList {
    link: NameLink,
}

#[cycle(list)]
#[derive(Drop)]
enum NameLink {
    Nothing,
    After(Snapshot<NameList>, Name),
}

impl Model for NameList {
    ghost use Rattle.std.specs.Prelude.{List};
    ghost use Rattle.mp_names.specs.declared.names.Name.{Name};

    ghost Value = { List Name };

    ghost use Rattle.std.specs.Prelude.{length};
    ghost use Rattle.mp_rows.specs.NameLinks.{listed};

    ghost view = { λ names. listed names.link };

    ghost invariant = { λ _. Unit {0} };

    ghost size = { length };

    ghost use Rattle.mp_rows.specs.NameFalls.{falls};

    ghost size_decreases = { λ names h. falls names.link };
}

/// No names.
pub(crate) fn no_list() -> Snapshot<NameList>
    ensures { result.value ≡ [] }
{
    Snapshot::of(&NameList {
        link: NameLink::Nothing,
    })
}

/// These names, and one more behind them.
pub(crate) fn one_after(before: Snapshot<NameList>, name: Name) -> Snapshot<NameList>
    ensures { result.value ≡ before.value ++ name ∷ [] }
{
    let link = NameLink::After(before, name);
    Snapshot::of(&NameList { link })
}
