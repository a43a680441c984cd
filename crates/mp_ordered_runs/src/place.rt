//! An item put at a place.
ghost use Rattle.std.specs.Prelude.{◌≡◌, ◌≤◌, ◌<◌, length};
ghost use Rattle.std.specs.List.{insert};
ghost use Rattle.std.specs.Vec.{vec_capacity};

/// Puts an item at a place in a list, mostly at its end, which has memory for it.
pub fn put<T: Drop>(items: &mut Vec<T>, at: usize, item: T)
    requires inside { at ≤ length items.old.items }
    requires memory { length items.old.items < vec_capacity items.old }
    ensures items { items.new.items ≡ insert items.old.items at item }
    ensures memory { vec_capacity items.old ≤ vec_capacity items.new }
{
    if at == items.len() {
        items.push_reserved(item);
        return;
    }
    let Ok(()) = items.insert(at, item) else {
        unreachable!()
    };
}
