//! The cursor over the control records.
ghost use Rattle.std.specs.Prelude.{◌≡◌, ◌<◌, ◌-◌, ◌^◌};
ghost use Rattle.mp_controller.specs.Cursors.{place_after};

use mp_names::ControlCursor;

/// What is sent after a control record: the same one to the next receiver, or the next one to the first.
pub(crate) fn place_after(workers: u32, next: ControlCursor) -> ControlCursor
    requires index { next.index < 2 ^ 32 - 1 }
    requires to { next.receiver < workers }
    ensures { result ≡ place_after workers next }
{
    if next.receiver + 1 == workers {
        ControlCursor {
            index: next.index + 1,
            receiver: 0,
        }
    } else {
        ControlCursor {
            index: next.index,
            receiver: next.receiver + 1,
        }
    }
}
