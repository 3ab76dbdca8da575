//! Files cut after their last line feed: a last line without one may be half written.

ghost use Rattle.std.specs.Prelude.{◌≡◌};
ghost use Rattle.cron_tab_running.specs.Ended.{ended};

/// A file's bytes up to and including its last line feed.
pub(crate) fn ended(bytes: &[u8]) -> &[u8]
    ensures { result.now ≡ ended bytes.now }
{
    let mut end = bytes.len();
    while end > 0 && bytes[end - 1] != b'\n' {
        end -= 1;
    }
    &bytes[..end]
}
