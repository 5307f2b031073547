//! The numbering of notices.
ghost use Rattle.std.specs.Prelude.{◌≡◌, ◌+◌, ◌^◌, ◌<◌, ◌≤◌, length, take};
ghost use Rattle.records.specs.Notices.{counted, counted_front};

use crate::notices::Notice;
use crate::numbers::NoticeNumber;

/// Gives the notices their numbers, from one above `before` on.
pub fn count_notices(notices: &mut [Notice], before: NoticeNumber)
    requires { before.0 + length notices.old < 2 ^ 64 }
    ensures { notices.new ≡ counted before.0 notices.old }
{
    for (i, notice) in notices.iter_mut().enumerate() {
        notice.number = NoticeNumber(before.0 + 1 + i as u64);
    }
}

/// Counts the first n notices of a list.
// The list is lent: nothing allocates on the way of a call.
pub fn count_front(list: &mut [Notice], n: usize, before: NoticeNumber)
    requires within { n ≤ length list.old }
    requires fits { before.0 + n < 2 ^ 64 }
    ensures list { list.new ≡ counted_front before.0 n list.old }
    ensures front { take n list.new ≡ counted before.0 (take n list.old) }
{
    count_notices(&mut list[..n], before);
}
