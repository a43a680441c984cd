//! The times at which windows end.
ghost use Rattle.std.specs.Prelude.{◌≡◌, ◌*◌, ◌≤◌, All};
ghost use Rattle.mp_names.specs.Limits.{last_time};
ghost use Rattle.mp_q_window.specs.Windows.{IsEndWithin, end_after, ends_after};

use mp_model::{PostList, Time};

/// The first end of a window above a time, where windows end at the multiples of their width: at most the width above it.
/// The width is 1 to 43,200, and the time at most 2^47 + 43,200.
pub fn next_end(width: u64, time: Time) -> Time
    requires some_width { 1 ≤ width }
    requires short { width ≤ 43200 }
    requires in_time { time ≤ last_time }
    ensures end { result ≡ end_after width time }
    ensures within { IsEndWithin width width time result }
{
    (time / width + 1) * width
}

/// The ends of the windows that hold a time, in order. Windows are so many slides long, 6 at most, and end at the multiples of
/// a slide, which is 1 to 7200. The time is at most 2^47 + 43,200.
pub fn next_ends(slide: u64, slides: u64, time: Time) -> PostList
    requires some_slide { 1 ≤ slide }
    requires short { slide ≤ 7200 }
    requires few { slides ≤ 6 }
    requires in_time { time ≤ last_time }
    ensures ends { result ≡ ends_after slide slides time }
    ensures within { All (IsEndWithin slide (slide * slides) time) result }
{
    let mut ends = PostList::new();
    for i in 0..slides {
        ends.push((time / slide + 1 + i) * slide);
    }
    ends
}
